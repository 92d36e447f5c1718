// Text put at the start of a lent part of a block: a line, an address of the last line, its first word and its end; an outcome, and a number.
// Each writer answers how many bytes it put; a part of fewer than 32 bytes is left as it is. Rests on the text of 01, specs/Text.
// The number of a line is spelt eight digits at once, in one word; specs/Digits has what those writers say among themselves.
#![tactic(auto)]

ghost use Rattle.std.specs.Prelude.{◌≡◌, [], ◌∷◌, ◌++◌, ◌-◌, ◌<◌, ◌≤◌, length};
ghost use Rattle.std.specs.Int.{from_le_bytes, w64};
ghost use Rattle.text.specs.Text.{decimal, space, newline, keys_word, outcome_text, line_end, line};
ghost use Rattle.text.specs.Digits.{last_digits, pairs_of, tens, Begun};
ghost use Rattle.text.specs.Put.{put, puts, put_into};
ghost use Rattle.record.specs.declared.Outcome.TheVariants.{Refused, Answered};

use record::{Address, FALSE, Outcome, TRUE};

// How many decimal digits a number has; those of a long run's lines are told first.
#[tactic(auto, unfolding(crate::specs::Text::decimal, crate::specs::Text::digits))]
fn places(n: u32) -> usize
    ensures { result ≡ length (decimal n) }
{
    if n < 1000000 {
        return places_few(n);
    }
    if n < 10000000 {
        return 7;
    }
    if n < 100000000 {
        return 8;
    }
    if n < 1000000000 {
        return 9;
    }
    10
}

// Those of a short number.
#[tactic(auto, unfolding(crate::specs::Text::decimal, crate::specs::Text::digits))]
fn places_few(n: u32) -> usize
    requires { n < 1000000 }
    ensures { result ≡ length (decimal n) }
{
    if 100000 <= n {
        return 6;
    }
    if 10000 <= n {
        return 5;
    }
    if 1000 <= n {
        return 4;
    }
    if 100 <= n {
        return 3;
    }
    if 10 <= n {
        return 2;
    }
    1
}

// A number in decimal, spelt from its last digit to its first.
fn put_decimal(part: &mut [u8], n: u32) -> usize
    requires { 10 ≤ length part.old }
    ensures result_after { put part.new result ≡ puts (decimal n) part.old }
    ensures upper_bound { result ≤ 10 }
{
    let count = places(n);
    let mut rest = n;
    for i in (0..count).rev() {
        part[i] = b'0' + (rest % 10) as u8;
        rest /= 10;
    }
    count
}

// The four pairs of eight digits, each in sixteen bits, the first lowest. Both halves are split at once: a half times 10486 / 2^20 is its
// hundreds, and 65536 times a half, less 65536 * 100 - 1 times its hundreds, is its hundreds below its rest. proofs/Lanes says why.
fn pairs(n: u32) -> u64
    requires { n < 100000000 }
    ensures { result ≡ pairs_of n }
{
    let fours = u64::from(n / 10000) + u64::from(n % 10000) * 4294967296;
    let shares = fours * 10486 / 1048576;
    let hundreds = shares % 128 + shares / 4294967296 * 4294967296;
    fours * 65536 - hundreds * 6553599
}

// The text of eight digits, each in eight bits, the first lowest. The four pairs are split at once: a pair times 103 / 2^10 is its tens, and
// 256 times a pair, less 256 * 10 - 1 times its tens, is its tens below its ones; and `0` is added in each byte.
fn spelt(n: u32) -> u64
    requires { n < 100000000 }
    ensures { result ≡ from_le_bytes w64 (last_digits 8 n) }
{
    let pairs = pairs(n);
    let shares = pairs * 103 / 1024;
    let low = shares % 16 + shares / 65536 % 16 * 65536;
    let tens = low
        + shares / 4294967296 % 16 * 4294967296
        + shares / 281474976710656 * 281474976710656;
    pairs * 256 + 3472328296227680304 - tens * 2559
}

// Eight digits, from one word.
fn put_eight(part: &mut [u8], n: u32) -> usize
    requires n_bound { n < 100000000 }
    requires in_bounds { 8 ≤ length part.old }
    ensures { put part.new result ≡ puts (last_digits 8 n) part.old }
{
    let text = spelt(n);
    part[..8].copy_from_slice(&text.to_le_bytes());
    8
}

// Times this, a number of so many digits has eight.
#[tactic(auto, unfolding(crate::specs::Digits::tens))]
fn lift(count: usize) -> u32
    requires { 4 ≤ count }
    ensures { result ≡ tens (8 - count) }
{
    match count {
        4 => 10000,
        5 => 1000,
        6 => 100,
        7 => 10,
        _ => 1,
    }
}

// The number of a line, where at least four bytes are to follow: no more than four past the number are changed, and those take their place.
#[tactic(auto, using(crate::proofs::Decimal::eight_fits, crate::proofs::Decimal::eight_fits_32))]
fn put_line_number(part: &mut [u8], n: u32) -> usize
    requires { 14 ≤ length part.old }
    ensures { Begun (decimal n) part.old part.new result }
{
    let count = places(n);
    if count < 4 {
        return put_decimal(part, n);
    }
    if 8 < count {
        return put_decimal(part, n);
    }
    put_eight(part, n * lift(count));
    count
}

// A text, byte for byte.
fn put_text(part: &mut [u8], text: &[u8]) -> usize
    requires { length text.now ≤ length part.old }
    ensures result_after { put part.new result ≡ puts text.now part.old }
    ensures value { result ≡ length text.now }
{
    for (i, &byte) in text.iter().enumerate() {
        part[i] = byte;
    }
    text.len()
}

// A number and the end of its line.
#[tactic(auto, using(crate::proofs::Puts::put_byte, crate::proofs::Puts::put_stored, crate::proofs::Decimal::decimal_within, crate::proofs::Decimal::decimal_one))]
fn put_ended(part: &mut [u8], n: u32) -> usize
    requires { 11 ≤ length part.old }
    ensures result_after { put part.new result ≡ puts (decimal n ++ (newline ∷ [])) part.old }
    ensures upper_bound { result ≤ 11 }
{
    if n < 10 {
        part[0] = b'0' + n as u8;
        part[1] = b'\n';
        return 2;
    }
    let k = put_decimal(part, n);
    part[k] = b'\n';
    k + 1
}

// ` refused N` and the end of the line.
#[tactic(auto, using(crate::proofs::Puts::put_both), unfolding(crate::specs::Text::outcome_text))]
fn put_refused(part: &mut [u8], number: u8) -> usize
    requires { 20 ≤ length part.old }
    ensures result_after { put part.new result ≡ puts (line_end (Refused number)) part.old }
    ensures upper_bound { result ≤ 20 }
{
    let k = put_text(part, b" refused ");
    let m = put_ended(&mut part[k..], u32::from(number));
    k + m
}

// ` false`, ` true` or ` fail` and the end of the line.
#[tactic(auto, using(crate::proofs::LineEnds::ended_false, crate::proofs::LineEnds::ended_true, crate::proofs::LineEnds::ended_fail))]
fn put_answer(part: &mut [u8], answer: u8) -> usize
    requires { 20 ≤ length part.old }
    ensures result_after { put part.new result ≡ puts (line_end (Answered answer)) part.old }
    ensures upper_bound { result ≤ 20 }
{
    if answer == FALSE {
        return put_text(part, b" false\n");
    }
    if answer == TRUE {
        return put_text(part, b" true\n");
    }
    put_text(part, b" fail\n")
}

// What an event came to, after a space, and the end of the line.
#[tactic(auto, using(crate::proofs::LineEnds::line_ended, crate::proofs::LineEnds::four_ended), unfolding(crate::specs::Text::outcome_text))]
fn put_line_end(part: &mut [u8], outcome: Outcome) -> usize
    requires { 20 ≤ length part.old }
    ensures result_after { put part.new result ≡ puts (line_end outcome) part.old }
    ensures lower_bound { 4 ≤ result }
    ensures upper_bound { result ≤ 20 }
{
    match outcome {
        Outcome::Refused(number) => put_refused(part, number),
        Outcome::Accepted => put_text(part, b" ok\n"),
        Outcome::Answered(answer) => put_answer(part, answer),
    }
}

// The line of an event: its number, and what it came to. It stands in the caller's loop: a call for each event would cost more than a tenth.
#[tactic(auto, using(crate::proofs::Puts::too_short))]
#[inline(always)]
pub fn put_line(part: &mut [u8], number: u32, outcome: Outcome) -> usize
    ensures result_after { put part.new result ≡ put_into (line number outcome) part.old }
    ensures upper_bound { result ≤ 30 }
{
    if part.len() < 32 {
        return 0;
    }
    let k = put_line_number(part, number);
    let m = put_line_end(&mut part[k..], outcome);
    k + m
}

// The line of a refusal that no event had: of a header, or of what can't be read on.
pub fn put_refusal(part: &mut [u8], number: u32, refusal: u8) -> usize
    ensures result_after { put part.new result ≡ put_into (line number (Refused refusal)) part.old }
    ensures upper_bound { result ≤ 30 }
{
    put_line(part, number, Outcome::Refused(refusal))
}

// What an event came to: as the line of an event ends, without the space before it and the end of the line.
#[tactic(auto, using(crate::proofs::Puts::too_short))]
pub fn put_outcome(part: &mut [u8], outcome: Outcome) -> usize
    ensures result_after { put part.new result ≡ put_into (outcome_text outcome) part.old }
    ensures upper_bound { result ≤ 18 }
{
    if part.len() < 32 {
        return 0;
    }
    let mut end = [0u8; 20];
    let k = put_line_end(&mut end, outcome);
    put_text(part, &end[1..k - 1])
}

// The first word of the last line.
#[tactic(auto, using(crate::proofs::Puts::too_short, crate::proofs::Puts::into_room))]
pub fn put_keys(part: &mut [u8]) -> usize
    ensures result_after { put part.new result ≡ put_into keys_word part.old }
    ensures upper_bound { result ≤ 4 }
{
    if part.len() < 32 {
        return 0;
    }
    put_text(part, b"keys")
}

// A number after a space.
#[tactic(auto, using(crate::proofs::Puts::too_short))]
pub fn put_number(part: &mut [u8], number: u32) -> usize
    ensures result_after { put part.new result ≡ put_into (space ∷ decimal number) part.old }
    ensures upper_bound { result ≤ 11 }
{
    if part.len() < 32 {
        return 0;
    }
    let k = put_text(part, b" ");
    let m = put_decimal(&mut part[k..], number);
    k + m
}

// An address of the last line, after a space.
pub fn put_address(part: &mut [u8], address: Address) -> usize
    ensures result_after { put part.new result ≡ put_into (space ∷ decimal address.0) part.old }
    ensures upper_bound { result ≤ 11 }
{
    put_number(part, address.0)
}

// The end of the last line.
#[tactic(auto, using(crate::proofs::Puts::too_short, crate::proofs::Puts::into_room))]
pub fn put_newline(part: &mut [u8]) -> usize
    ensures result_after { put part.new result ≡ put_into (newline ∷ []) part.old }
    ensures upper_bound { result ≤ 1 }
{
    if part.len() < 32 {
        return 0;
    }
    put_text(part, b"\n")
}
