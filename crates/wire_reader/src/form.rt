//! The forms in which messages are spelled.

ghost use Rattle.std.specs.Prelude.{◌≡◌, ◌≤◌};
ghost use Rattle.wire_reader.specs.Format.{lead};
ghost use Rattle.wire_reader.specs.Reading.{form_of};

/// A form in which messages are spelled. The first byte of a spelling tells it.
#[derive(Clone, Copy, Debug, PartialEq, Eq)]
pub enum Form {
    /// Integers have 64 bits, and eight bytes. It is written for readers that know no other.
    One,
    /// Integers have 128 bits, and sixteen bytes.
    Two,
}

impl Form {
    /// The form of a message whose byte of kind this is, if it is one.
    #[tactic(auto, unfolding(crate::specs::Reading::form_of))]
    pub(crate) fn of(byte: u8) -> Form
        ensures { result ≡ form_of byte }
    {
        if byte < 16 { Form::One } else { Form::Two }
    }

    /// What is added to the number of a kind of message.
    pub fn lead(self) -> u8
        ensures value { result ≡ lead self }
        ensures small { result ≤ 16 }
    {
        match self {
            Form::One => 0,
            Form::Two => 16,
        }
    }
}
