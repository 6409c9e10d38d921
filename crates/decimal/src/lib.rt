// Signed 32-bit numbers as decimal bytes: how many they are, and written into a part of a text.
#![tactic(auto)]

ghost use Rattle.std.specs.Prelude.{◌≡◌, ◌≤◌, nat_abs, length};
ghost use Rattle.word.specs.Word.{signed};
ghost use Rattle.decimal.specs.Bytes.{written, written_at};
ghost use Rattle.decimal.specs.Decimal.{digits, numeral};

// The number without its sign.
#[tactic(auto, using(word::proofs::Signed::cast_signed_is_signed))]
fn magnitude(word: u32) -> u32
    ensures { result ≡ nat_abs (signed word) }
{
    word.cast_signed().unsigned_abs()
}

// How many digits the number has.
#[tactic(auto, using(crate::proofs::Digits::digits_counted, crate::proofs::Digits::length_one))]
fn digit_count(n: u32) -> usize
    ensures { (result ≡ length (digits n)) × (result ≤ 10) }
{
    if n < 10 {
        return 1;
    }
    n.ilog10() as usize + 1
}

// How many bytes the number has: its digits, and a minus if it is negative.
#[tactic(auto, using(crate::proofs::Numerals::numeral_bytes))]
pub fn width(word: u32) -> usize
    ensures { result ≡ length (numeral word) }
{
    digit_count(magnitude(word)) + usize::from(word.cast_signed() < 0)
}

// Writes the digits of the number into the places for them, from the last to the first.
#[tactic(auto, using(std::proofs::lemmas::Grind::common_steps, crate::proofs::Filling::last_all, crate::proofs::Digits::digits_bound, crate::proofs::Digits::digits_some))]
fn fill(places: &mut [u8], n: u32)
    requires { length places.old ≡ length (digits n) }
    ensures { places.new ≡ digits n }
{
    let mut rest = n;
    // By place: of what is written through `iter_mut().rev()` std says nothing, and no proof closes.
    for place in (1..places.len()).rev() {
        places[place] = b'0' + (rest % 10) as u8;
        rest /= 10;
    }
    places[0] = b'0' + rest as u8;
}

// Writes the number into the places for its bytes.
#[tactic(auto, using(std::proofs::lemmas::Grind::common_steps, crate::proofs::Filling::front_first, crate::proofs::Numerals::numeral_plain, crate::proofs::Numerals::numeral_minus))]
fn put(places: &mut [u8], word: u32)
    requires { length places.old ≡ length (numeral word) }
    ensures { places.new ≡ numeral word }
{
    if word.cast_signed() < 0 {
        places[0] = b'-';
        fill(&mut places[1..], magnitude(word));
    } else {
        fill(places, magnitude(word));
    }
}

// Writes the number from a place of the text on, if there is room for it, and gives the number of bytes written.
#[tactic(auto, using(std::proofs::lemmas::Grind::common_steps, crate::proofs::Writing::written_part, crate::proofs::Writing::written_no_room))]
pub fn write(text: &mut [u8], at: usize, word: u32) -> Option<usize>
    ensures { written result text.new ≡ written_at text.old at (numeral word) }
{
    let bytes = width(word);
    let room = text.len().checked_sub(at)?;
    if room < bytes {
        return None;
    }
    put(&mut text[at..at + bytes], word);
    Some(bytes)
}
