// Numbers of 01 as bytes, and their reader: a number's groups are gathered into a scratch array of five, then judged and summed. The
// definitions of the bytes are in specs/.
#![tactic(auto)]

ghost use Rattle.std.specs.Prelude.{◌≡◌, ◌+◌, ◌*◌, ◌<◌};
ghost use Rattle.numbers.specs.ReadAt.{number_told, number_at};
ghost use Rattle.numbers.specs.Gathering.{Groups, summed_with, judged};

use record::Refusal;

// A group before the rest of its number.
fn lowest(group: u8, rest: u32) -> u32
    requires { (group < 128) × (rest < 33554432) }
    ensures { result ≡ group + 128 * rest }
{
    u32::from(group) + 128 * rest
}

// The number of the first four groups and a fifth.
fn sum(groups: [u8; 5], fifth: u8) -> u32
    requires groups { Groups groups }
    requires fifth_bound { fifth < 16 }
    ensures { result ≡ summed_with groups fifth }
{
    let rest = lowest(groups[3], u32::from(fifth));
    let rest = lowest(groups[2], rest);
    let rest = lowest(groups[1], rest);
    lowest(groups[0], rest)
}

// The groups gathered: a last group of zero after another, or a fifth above 15, is refused.
#[tactic(auto, using(crate::proofs::Gathers::summed_five), unfolding(crate::specs::Gathering::judged))]
fn judge(groups: [u8; 5], last: usize, next: usize) -> Result<(u32, usize), Refusal>
    requires groups { Groups groups }
    requires last_bound { last < 5 }
    ensures { number_told result ≡ judged groups last next }
{
    if 0 < last && groups[last] == 0 {
        return Err(Refusal::BadNumber);
    }
    let fifth = groups[4];
    if 15 < fifth {
        return Err(Refusal::BadNumber);
    }
    let number = sum(groups, fifth);
    Ok((number, next))
}

// The number that stands at a place, with the place after it.
#[tactic(auto, using(crate::proofs::Gathers::ways_out), unfolding(crate::proofs::Gathers::after_groups))]
pub fn read_number(bytes: &[u8], at: usize) -> Result<(u32, usize), Refusal>
    ensures { number_told result ≡ number_at bytes.now at }
{
    let mut groups = [0u8; 5];
    let mut next = at;
    for (count, group) in groups.iter_mut().enumerate() {
        if bytes.len() <= next {
            return Err(Refusal::CutShort);
        }
        let byte = bytes[next];
        next += 1;
        if byte < 128 {
            *group = byte;
            return judge(groups, count, next);
        }
        *group = byte - 128;
    }
    Err(Refusal::BadNumber)
}
