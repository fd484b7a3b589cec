//! What a prepared file holds.
ghost use Rattle.std.specs.Prelude.{◌≡◌, ℕ, ◌-◌, ◌^◌, ◌≤◌, [], length, Some};
ghost use Rattle.amq_model.specs.declared.config.Config.{Config};
ghost use Rattle.amq_model.specs.Configs.{IsConfig};
ghost use Rattle.amq_model.specs.Scan.{IsScan};
ghost use Rattle.amq_model.specs.Files.{Files, Image, IsImage};
ghost use Rattle.std.specs.FinMap as finite;
ghost use Rattle.amq_header.specs.Classes.{data_name};
ghost use Rattle.amq_header.specs.Headers.{header_in};
ghost use Rattle.amq_pool.specs.Pools.{file_for};

/// Whatever file id its records would carry, a scan of a prepared file finds none.
pub fn a_prepared_file_has_no_record()
    ensures { (config : Config) (id fid : ℕ) → IsConfig config → IsScan (file_for config id).bytes fid 2 [] }
{}

/// Whatever a crash leaves of a directory that reads a prepared file has the file whole.
pub fn a_prepared_file_is_durable()
    ensures { (config : Config) (id : ℕ) (s : Files) (image : Image) → finite.get s (data_name id) ≡ Some (file_for config id) → IsImage s image → finite.get image (data_name id) ≡ Some (file_for config id).bytes }
{}

/// A prepared file has the configured length, and its header has version 2, the journal's user version
/// and the file's number.
pub fn a_prepared_file_has_its_header()
    ensures size { (config : Config) (id : ℕ) → IsConfig config → length (file_for config id).bytes ≡ config.file_size }
    ensures header { (config : Config) (id : ℕ) → IsConfig config → id ≤ 2 ^ 31 - 1 →
        header_in (file_for config id).bytes ≡ Some (record { version = 2; user_version = config.user_version; id = id }) }
{}
