//! The commands, by their names.

/// What a line asks for.
pub enum Command {
    /// The classes of a list of byte ranges.
    Ranges,
    /// The classes of a list of assertions.
    Looks,
    /// Whether an assertion holds at a position of a haystack.
    Look,
    /// The slots of a list of groups.
    Groups,
    /// The same, with a limit on how many slots there are.
    Limited,
}

impl Command {
    /// The command of that name.
    pub fn from_name(name: &[u8]) -> Option<Command> {
        match name {
            b"ranges" => Some(Command::Ranges),
            b"looks" => Some(Command::Looks),
            b"look" => Some(Command::Look),
            b"groups" => Some(Command::Groups),
            b"limited" => Some(Command::Limited),
            _ => None,
        }
    }
}
