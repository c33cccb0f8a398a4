//! A refusal as it is printed.
ghost use Rattle.std.specs.Prelude.{◌≡◌};
ghost use Rattle.statements.specs.Printed.{refusal_text, Prints};

use crate::refusal::Short;
use crate::text::{Text, print_text, push_field, push_number};

/// What is printed in the place of a statement where a line of an input is refused.
#[derive(Clone, Copy, PartialEq, Eq, Debug)]
pub struct RefusalNote {
    /// The refusal's number.
    pub number: u64,
    /// The line that was refused, counted from 1.
    pub line: u64,
    /// The mark or the column that it is about, or 0.
    pub place: u64,
}

impl RefusalNote {
    /// The note's text: a line of names, and the refusal's number, the line and the place.
    #[tactic(auto, using(std::proofs::lemmas::Grind::common_steps, crate::proofs::Lengths::at_most_twenty), unfolding(crate::specs::Printed::refusal_text))]
    pub fn text(self) -> Text
        ensures { result.bytes ≡ refusal_text self.number self.line self.place }
    {
        let mut text = Text::new();
        text.push_str("REFUSAL;LINE;PLACE\n");
        push_number(&mut text, self.number);
        push_field(&mut text, self.line);
        push_field(&mut text, self.place);
        text.push_str("\n");
        text
    }

    /// Prints the note at the buffer's front, and answers the length. Refused with SHORT where the buffer has less than 400 bytes.
    pub fn print(self, buffer: &mut [u8]) -> Result<usize, Short>
        ensures { Prints (refusal_text self.number self.line self.place) buffer.old result buffer.new }
    {
        print_text(|| self.text(), buffer)
    }
}
