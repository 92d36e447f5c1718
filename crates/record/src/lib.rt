// The three sorts of number, the process record and its methods by value, actions, events, outcomes and refusals: what 01 stores and hands about.
// Rests on the kit alone.
#![tactic(auto)]

ghost use Rattle.std.specs.Prelude.{◌≡◌, cond};
ghost use Rattle.record.specs.Record.{lost_at, lost_part, record_of, ◌▸◌, ◌with◌, to, pred≔, curr≔, succ≔, node≔, result≔, status≔};
ghost use Rattle.record.specs.Record.{fresh_record, requested, went_down, restarted, head_node, idle_status, false_answer, true_answer, fail_answer};

// A node of the table: head is 0, tail 1.
#[derive(Clone, Copy, Debug, PartialEq, Eq)]
pub struct Node(pub u32);

// A process, numbered from 0.
#[derive(Clone, Copy, Debug, PartialEq, Eq)]
pub struct Process(pub u32);

// A claimed address: any 32-bit number.
#[derive(Clone, Copy, Debug, PartialEq, Eq)]
pub struct Address(pub u32);

pub const HEAD: Node = Node(0);

pub const TAIL: Node = Node(1);

pub const NO_NODE: Node = Node(0);

// A process's status.
pub const IDLE: u8 = 0;

pub const RUNNING: u8 = 1;

pub const DOWN: u8 = 2;

// The kind of its operation.
pub const INSERTS: u8 = 0;

pub const DELETES: u8 = 1;

pub const FINDS: u8 = 2;

// Answers and results.
pub const NO_ANSWER: u8 = 0;

pub const FALSE: u8 = 1;

pub const TRUE: u8 = 2;

pub const FAIL: u8 = 3;

// What a stop loses. Here and below the small fields come last, so that a record is copied in whole words; 01's order is that of `lost_part`.
#[derive(Clone, Copy)]
pub struct Lost {
    pub pred: Node,
    pub curr: Node,
    pub succ: Node,
    pub place: u8,
    pub pending: u8,
    pub recovering: bool,
}

// What a stop keeps.
#[derive(Clone, Copy)]
pub struct Kept {
    pub address: Address,
    pub node: Node,
    pub status: u8,
    pub kind: u8,
    pub result: u8,
}

#[derive(Clone, Copy)]
pub struct Record {
    pub lost: Lost,
    pub kept: Kept,
}

// What a process does: kinds 0 to 5.
#[derive(Clone, Copy)]
pub enum Action {
    Insert(Address),
    Delete(Address),
    Find(Address),
    Step,
    Stop,
    Restart,
}

// An event: a process, and what it does.
#[derive(Clone, Copy)]
pub struct Event {
    pub process: Process,
    pub action: Action,
}

// What an event comes to: refused with its number, accepted, or accepted with an answer (false 1, true 2, fail 3).
#[derive(Clone, Copy)]
pub enum Outcome {
    Refused(u8),
    Accepted,
    Answered(u8),
}

// Why an event, a file or a write is refused: 01's refusals in their order, 1 to 9.
#[derive(Clone, Copy, Debug, PartialEq, Eq)]
pub enum Refusal {
    NoSuchProcess,
    WrongStatus,
    NoNodeLeft,
    CutShort,
    BadEvent,
    BadNumber,
    BadSizes,
    Broken,
    NoRoom,
}

// A refusal's number.
impl From<Refusal> for u8 {
    ghost use Rattle.record.specs.Refusal.{number_of};

    ghost from_gives = { λ refusal number. number ≡ number_of refusal };

    fn from(refusal: Refusal) -> u8 {
        match refusal {
            Refusal::NoSuchProcess => 1,
            Refusal::WrongStatus => 2,
            Refusal::NoNodeLeft => 3,
            Refusal::CutShort => 4,
            Refusal::BadEvent => 5,
            Refusal::BadNumber => 6,
            Refusal::BadSizes => 7,
            Refusal::Broken => 8,
            Refusal::NoRoom => 9,
        }
    }
}

// A lost part of zeros but for its place.
fn lost_at(place: u8) -> Lost
    ensures { result ≡ lost_at place }
{
    Lost {
        place,
        pred: NO_NODE,
        curr: NO_NODE,
        succ: NO_NODE,
        pending: NO_ANSWER,
        recovering: false,
    }
}

// The one value or the other.
pub fn either<T: Drop>(first: bool, one: T, other: T) -> T
    ensures { result ≡ cond first one other }
{
    if first { one } else { other }
}

impl Record {
    // A record of zeros.
    pub fn fresh() -> Record
        ensures { result ≡ fresh_record }
    {
        let lost = lost_at(0);
        let kept = Kept {
            status: IDLE,
            kind: 0,
            address: Address(0),
            node: NO_NODE,
            result: NO_ANSWER,
        };
        Record { lost, kept }
    }

    // A request: running, at its first place, with its kind, its address and its node.
    pub fn request(mut self, place: u8, kind: u8, address: Address, own: Node) -> Record
        ensures { result ≡ requested place kind address own self }
    {
        let lost = lost_at(place);
        let mut kept = self.kept;
        kept.status = RUNNING;
        kept.kind = kind;
        kept.address = address;
        kept.node = own;
        kept.result = NO_ANSWER;
        self.lost = lost;
        self.kept = kept;
        self
    }

    // These in the lost part; its flag and the kept part stay. Field by field, so that no part of a record is copied through memory.
    fn with_lost(self, pred: Node, curr: Node, succ: Node, place: u8, pending: u8) -> Record
        ensures { result ≡ record_of (lost_part place pred curr succ pending self.lost.recovering) self.kept }
    {
        let lost = Lost {
            pred,
            curr,
            succ,
            place,
            pending,
            recovering: self.lost.recovering,
        };
        let address = self.kept.address;
        let node = self.kept.node;
        let kept = Kept {
            address,
            node,
            status: self.kept.status,
            kind: self.kept.kind,
            result: self.kept.result,
        };
        Record { lost, kept }
    }

    // To a place.
    pub fn goes(self, place: u8) -> Record
        ensures { result ≡ (self ▸ to place) }
    {
        let lost = self.lost;
        self.with_lost(lost.pred, lost.curr, lost.succ, place, lost.pending)
    }

    // To a place with an answer.
    pub fn goes_with(self, place: u8, answer: u8) -> Record
        ensures { result ≡ (self ▸ place with answer) }
    {
        let lost = self.lost;
        self.with_lost(lost.pred, lost.curr, lost.succ, place, answer)
    }

    // Row 0: pred is head, curr the target; to 1.
    pub fn from_head(self, target: Node) -> Record
        ensures { result ≡ (self ▸ pred≔ head_node ▸ curr≔ target ▸ to 1) }
    {
        let lost = self.lost;
        self.with_lost(HEAD, target, lost.succ, 1, lost.pending)
    }

    // Row 1: succ is the target; where the search goes onward, pred is curr and curr is succ; to a place with an answer.
    pub fn scans(self, target: Node, onward: bool, place: u8, answer: u8) -> Record
        ensures { result ≡
            (cond onward (self ▸ succ≔ target ▸ pred≔ self.lost.curr ▸ curr≔ target) (self ▸ succ≔ target) ▸ place with answer) }
    {
        let lost = self.lost;
        let pred = either(onward, lost.curr, lost.pred);
        let curr = either(onward, target, lost.curr);
        self.with_lost(pred, curr, target, place, answer)
    }

    // Row 2, done: curr is succ; to 1.
    pub fn unlinked(self) -> Record
        ensures { result ≡ (self ▸ curr≔ self.lost.succ ▸ to 1) }
    {
        let lost = self.lost;
        self.with_lost(lost.pred, lost.succ, lost.succ, 1, lost.pending)
    }

    // Row 6: succ is the target; to a place.
    pub fn found(self, target: Node, place: u8) -> Record
        ensures { result ≡ (self ▸ succ≔ target ▸ to place) }
    {
        let lost = self.lost;
        self.with_lost(lost.pred, lost.curr, target, place, lost.pending)
    }

    // Row 10: by whether the deleter is the process.
    pub fn told_by_deleter(self, mine: bool) -> Record
        ensures { result ≡ cond mine (self ▸ 18 with true_answer) (self ▸ 18 with false_answer) }
    {
        if mine {
            return self.goes_with(18, TRUE);
        }
        self.goes_with(18, FALSE)
    }

    // Row 11: curr is the target; to a place with an answer.
    pub fn walked(self, target: Node, place: u8, answer: u8) -> Record
        ensures { result ≡ (self ▸ curr≔ target ▸ place with answer) }
    {
        let lost = self.lost;
        self.with_lost(lost.pred, target, lost.succ, place, answer)
    }

    // Row 5: curr is written as the record's node; to 6.
    pub fn takes_curr(mut self) -> Record
        ensures { result ≡ (self ▸ node≔ self.lost.curr ▸ to 6) }
    {
        let curr = self.lost.curr;
        let mut kept = self.kept;
        kept.node = curr;
        self.kept = kept;
        self.lost.place = 6;
        self
    }

    // Rows 14 and 17: by the mark of the record's node, or by whether its deleter is the process.
    pub fn recovers(self, won: bool) -> Record
        ensures { result ≡ cond won (self ▸ 18 with true_answer) (self ▸ 19 with fail_answer) }
    {
        if won {
            return self.goes_with(18, TRUE);
        }
        self.goes_with(19, FAIL)
    }

    // Row 18: the pending answer is written as the kept result; to 19.
    pub fn keeps_answer(mut self) -> Record
        ensures { result ≡ (self ▸ result≔ self.lost.pending ▸ to 19) }
    {
        let answer = self.lost.pending;
        self.kept.result = answer;
        self.lost.place = 19;
        self
    }

    // Row 19: status idle.
    pub fn rests(mut self) -> Record
        ensures { result ≡ (self ▸ status≔ idle_status) }
    {
        self.kept.status = IDLE;
        self
    }

    // A stop: the lost part becomes zeros, status down.
    pub fn goes_down(mut self) -> Record
        ensures { result ≡ went_down self }
    {
        let lost = lost_at(0);
        self.lost = lost;
        self.kept.status = DOWN;
        self
    }

    // A restart: running at place 13, recovering.
    pub fn restarts(mut self) -> Record
        ensures { result ≡ restarted self }
    {
        self.lost.place = 13;
        self.lost.recovering = true;
        self.kept.status = RUNNING;
        self
    }
}
