// The format of the cases: each is its stated sizes and its count; the addresses, links and deleters, each its lent length and its words; the
// row's lent length and its records; the event. Every number is in 01's form, and a bad one makes the case bad.
ghost use Rattle.std.specs.Prelude.{◌≤◌, IfSome};

use record::{Action, Address, Event, Kept, Lost, Node, Process, Record};
use words::Sizes;

// The most words or records that are lent.
const MOST_LENT: u32 = 64;

// What is lent of a table or of the row: the first of an array.
#[derive(Drop)]
pub(crate) struct Lent<T> {
    pub(crate) items: [T; 64],
    pub(crate) count: usize,
    ghost count_bound: { count ≤ 64 },
}

// A case: what is lent, and the event on it.
#[derive(Drop)]
pub(crate) struct Case {
    pub(crate) sizes: Sizes,
    pub(crate) addresses: Lent<u32>,
    pub(crate) links: Lent<u32>,
    pub(crate) deleters: Lent<u32>,
    pub(crate) row: Lent<Record>,
    pub(crate) event: Event,
}

// The numbers of the input from a place on.
#[derive(Drop)]
pub(crate) struct Numbers<'a> {
    input: &'a [u8],
    next: usize,
}

impl<'a> Numbers<'a> {
    pub(crate) fn new(input: &'a [u8]) -> Numbers<'a> {
        Numbers { input, next: 0 }
    }

    // Whether none is left.
    pub(crate) fn is_at_end(&self) -> bool {
        self.input.len() <= self.next
    }

    // The next number, if it is in its form.
    fn take(&mut self) -> Option<u32> {
        let (number, next) = numbers::read_number(self.input, self.next).ok()?;
        self.next = next;
        Some(number)
    }

    // The next number, if it is not above `most`.
    fn take_up_to(&mut self, most: u32) -> Option<u32>
        ensures { IfSome result (λ number. number ≤ most) }
    {
        self.take().filter(|&number| number <= most)
    }

    fn take_byte(&mut self) -> Option<u8> {
        u8::try_from(self.take()?).ok()
    }

    fn take_sizes(&mut self) -> Option<Sizes> {
        Some(Sizes {
            nodes: self.take()?,
            processes: self.take()?,
            count: self.take()?,
        })
    }

    // What is lent of a table or of the row: how many, and each.
    fn take_lent<T: Copy, F: Fn(&mut Numbers<'a>) -> Option<T>>(
        &mut self,
        blank: T,
        take: F,
    ) -> Option<Lent<T>>
        requires { F.IsAlwaysCallable take }
    {
        let mut items = [blank; 64];
        let count = self.take_up_to(MOST_LENT)? as usize;
        for item in &mut items[..count] {
            *item = take(self)?;
        }
        Some(Lent { items, count })
    }

    fn take_lost(&mut self) -> Option<Lost> {
        Some(Lost {
            place: self.take_byte()?,
            pred: Node(self.take()?),
            curr: Node(self.take()?),
            succ: Node(self.take()?),
            pending: self.take_byte()?,
            recovering: self.take_up_to(1)? == 1,
        })
    }

    fn take_kept(&mut self) -> Option<Kept> {
        Some(Kept {
            status: self.take_byte()?,
            kind: self.take_byte()?,
            address: Address(self.take()?),
            node: Node(self.take()?),
            result: self.take_byte()?,
        })
    }

    fn take_record(&mut self) -> Option<Record> {
        let lost = self.take_lost()?;
        let kept = self.take_kept()?;
        Some(Record { lost, kept })
    }

    fn take_event(&mut self) -> Option<Event> {
        let kind = self.take_up_to(5)?;
        let process = Process(self.take()?);
        let action = match kind {
            0 => Action::Insert(Address(self.take()?)),
            1 => Action::Delete(Address(self.take()?)),
            2 => Action::Find(Address(self.take()?)),
            3 => Action::Step,
            4 => Action::Stop,
            _ => Action::Restart,
        };
        Some(Event { process, action })
    }

    // The next case, if each of its numbers is good.
    pub(crate) fn take_case(&mut self) -> Option<Case> {
        Some(Case {
            sizes: self.take_sizes()?,
            addresses: self.take_lent(0, Numbers::take)?,
            links: self.take_lent(0, Numbers::take)?,
            deleters: self.take_lent(0, Numbers::take)?,
            row: self.take_lent(Record::fresh(), Numbers::take_record)?,
            event: self.take_event()?,
        })
    }
}
