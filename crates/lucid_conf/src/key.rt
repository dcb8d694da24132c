// The keys of both files, and other things that a fault may name.
ghost use Rattle.std.specs.Prelude.{◌≡◌};
ghost use Rattle.lucid_conf.specs.Keys.{name_of};

/// The part of a file that a fault names.
#[derive(Clone, Copy)]
pub enum Key {
    /// The file itself, which is no object.
    File,
    /// A key that the file may not have.
    Other,
    Stages,
    Tables,
    Rows,
    Arrays,
    Arms,
    Bits,
    Recirc,
    Version,
    Switches,
    Stop,
    Links,
    Down,
    Events,
    Steps,
}

impl Key {
    /// How a file writes the key; `file` and `other` for the two that are no keys of a file.
    pub fn name(self) -> &'static str
        ensures { result.now ≡ name_of self }
    {
        match self {
            Key::File => "file",
            Key::Other => "other",
            Key::Stages => "stages",
            Key::Tables => "tables",
            Key::Rows => "rows",
            Key::Arrays => "arrays",
            Key::Arms => "arms",
            Key::Bits => "bits",
            Key::Recirc => "recirc",
            Key::Version => "version",
            Key::Switches => "switches",
            Key::Stop => "stop",
            Key::Links => "links",
            Key::Down => "down",
            Key::Events => "events",
            Key::Steps => "steps",
        }
    }
}
