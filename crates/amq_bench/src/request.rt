use crate::measure::Measure;

/// What the command line asks for.
#[derive(Clone, Copy, Debug, PartialEq, Eq)]
pub struct Request {
    pub chosen: Chosen,
    /// Bytes or records, as the measure says.
    pub size: usize,
    /// How often the measured work is done.
    pub repeats: u32,
    /// Whether the time is printed.
    pub timed: bool,
}

#[derive(Clone, Copy, Debug, PartialEq, Eq)]
pub enum Chosen {
    One(Measure),
    All,
}

impl Request {
    /// What these words ask for; `None` where they are of another form.
    pub fn of(words: &[&str]) -> Option<Request> {
        match words {
            [name, size, repeats] => Request::read(name, size, repeats, false),
            [name, size, repeats, "time"] => Request::read(name, size, repeats, true),
            _ => None,
        }
    }

    fn read(name: &str, size: &str, repeats: &str, timed: bool) -> Option<Request> {
        Some(Request {
            chosen: Chosen::named(name)?,
            size: size.parse().ok()?,
            repeats: repeats.parse().ok()?,
            timed,
        })
    }
}

impl Chosen {
    fn named(name: &str) -> Option<Chosen> {
        if name == "all" {
            Some(Chosen::All)
        } else {
            Measure::named(name).map(Chosen::One)
        }
    }
}
