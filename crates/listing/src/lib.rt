// The listing of a code, in the notation of source document 000, written into a text that is lent.
#![tactic(auto)]

mod code;
mod line;

ghost use Rattle.std.specs.Prelude.{◌≡◌, ◌<◌, ◌≤◌, length};
ghost use Rattle.refusal.specs.Refusal.{verdict_of, laid_over};
ghost use Rattle.instruction.specs.Instruction.{count_of};
ghost use Rattle.listing.specs.Listing.{line as line_of, listing, room_for, list_said, answered, leaves};
ghost use Rattle.listing.specs.Inside.{line_text, Marked};

use code::{Code, WORDS};
use line::{LONGEST, Line, Text};
use refusal::Refusal;

// The most instructions of a code.
const MOST: usize = instruction::MOST_WORDS / WORDS;

// Code, and which of its places some jump names. The marks lie beside the code, which is lent to be read: nothing is allocated.
#[derive(Clone, Copy)]
struct Listing<'a> {
    code: &'a Code<'a>,
    marks: &'a [bool; MOST],
    ghost marked: { Marked code.now.words.now (count_of code.now.words.now) marks.now },
}

// Marks the labels that jumps name.
fn mark(code: &Code, marks: &mut [bool; MOST])
    requires { Marked code.now.words.now 0 marks.old }
    ensures { Marked code.now.words.now (count_of code.now.words.now) marks.new }
{
    'instructions: for place in 0..code.count() {
        if let Some(label) = code::named_by(code.instruction(place)) {
            marks[label as usize] = true;
        }
    }
}

impl Listing<'_> {
    // The line of a place.
    #[tactic(auto, using(crate::proofs::Marks::few, crate::proofs::Marks::marked_line))]
    fn line(&self, place: usize) -> Line
        requires { place < count_of self.now.code.now.words.now }
        ensures { line_text result ≡ line_of self.now.code.now.words.now place }
    {
        Line {
            named: self.marks[place],
            place: place as u32,
            instruction: self.code.instruction(place),
        }
    }

    // The length of the listing.
    #[tactic(auto, using(crate::proofs::Marks::few, crate::proofs::Marks::short_line, crate::proofs::Marks::lines_short, crate::proofs::Lines::lines_next), unfolding(crate::specs::Listing::lines))]
    fn measure(&self) -> usize
        ensures { result ≡ length (listing self.now.code.now.words.now) }
    {
        let mut total = 0;
        'lines: for place in 0..self.code.count() {
            total += self.line(place).width();
        }
        total
    }

    // Refusal 22. A text with room for the longest line, as often as there are lines, is not measured against them.
    #[tactic(auto, using(crate::proofs::Marks::few, crate::proofs::Marks::listing_short, crate::proofs::Answers::enough_room, crate::proofs::Answers::no_room))]
    fn check_room(&self, room: usize) -> Result<(), Refusal>
        ensures { verdict_of result ≡ room_for (length (listing self.now.code.now.words.now)) room }
    {
        if self.code.count() * LONGEST <= room {
            return Ok(());
        }
        let needed = self.measure();
        if room < needed {
            return Err(Refusal::TextRoom(needed as u32));
        }
        Ok(())
    }

    // Writes the listing, and gives its length.
    fn write(&self, text: &mut [u8]) -> usize
        requires { length (listing self.now.code.now.words.now) ≤ length text.old }
        ensures length { result ≡ length (listing self.now.code.now.words.now) }
        ensures text { text.new ≡ laid_over (listing self.now.code.now.words.now) text.old }
    {
        let mut written = Text { bytes: text, at: 0 };
        'lines: for place in 0..self.code.count() {
            written.line(self.line(place));
        }
        written.at
    }
}

// The listing of sound code, if there is room for it.
fn print(code: &Code, text: &mut [u8]) -> Result<u32, Refusal>
    ensures answer { list_said result ≡ answered code.now.words.now (length text.old) }
    ensures text { text.new ≡ leaves code.now.words.now text.old }
{
    let mut marks = [false; MOST];
    mark(code, &mut marks);
    let listing = Listing {
        code,
        marks: &marks,
    };
    listing.check_room(text.len())?;
    Ok(listing.write(text) as u32)
}

// Writes the listing of the code over the front of the text. Answers the bytes written, or a refusal, which leaves the text as it was.
#[tactic(auto, using(crate::proofs::Answers::refused_by_code, crate::proofs::Answers::left_by_code))]
pub fn list(code: &[u32], text: &mut [u8]) -> Result<u32, Refusal>
    ensures answer { list_said result ≡ answered code.now (length text.old) }
    ensures text { text.new ≡ leaves code.now text.old }
{
    print(&Code::checked(code)?, text)
}
