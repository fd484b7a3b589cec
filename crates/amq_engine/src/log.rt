//! A list with room made ahead.
ghost use Rattle.std.specs.Prelude.{◌≡◌, ◌≤◌, ◌+◌, ◌++◌, ◌∷◌, [], OnOk};

use amq_model::NoMemory;
use std::alloc::Global;
use std::marker::Model;

/// Items that contracts see as a list, with the room that is made for more.
#[derive(Debug, Drop)]
pub struct Log<T> {
    items: Vec<T>,
    room: usize,
}

impl<T> Model for Log<T> {
    ghost use Rattle.std.specs.Prelude.{◌+◌, ◌≤◌, vec_len, vec_capacity};
    ghost use Rattle.amq_engine.specs.Logs.{Roomy, roomy_code};

    ghost Value = { Roomy T };

    ghost coded = { roomy_code T.code };

    ghost view = { λ l. record { items = l.items.items; room = l.room } };

    ghost invariant = { λ l. vec_len l.items + l.room ≤ vec_capacity l.items };
}

impl<T> Log<T> {
    /// An empty list, without room.
    pub fn new(alloc: Global) -> Log<T>
        ensures { result ≡ record { items = []; room = 0 } }
    {
        Log {
            items: Vec::new(alloc),
            room: 0,
        }
    }

    /// Makes room for so many more, unless it is there.
    pub fn reserve(&mut self, more: usize) -> Result<(), NoMemory>
        ensures items { self.new.items ≡ self.old.items }
        ensures ok { OnOk result (more ≤ self.new.room) }
        ensures room { self.old.room ≤ self.new.room }
    {
        if self.room >= more {
            return Ok(());
        }
        match self.items.try_reserve(more) {
            Ok(()) => {
                self.room = more;
                Ok(())
            }
            Err(_) => Err(NoMemory),
        }
    }

    /// Adds a value at the end. Takes no memory.
    pub fn push(&mut self, value: T)
        requires { 1 ≤ self.old.room }
        ensures items { self.new.items ≡ self.old.items ++ value ∷ [] }
        ensures room { self.new.room + 1 ≡ self.old.room }
    {
        self.room -= 1;
        self.items.push_reserved(value);
    }

    /// The items, borrowed.
    pub fn as_slice(&self) -> &[T]
        ensures { result.now ≡ self.now.items }
    {
        self.items.as_slice()
    }
}
