// One step: the record's ranges, then one match on the place with ranges, which chooses among the twenty rows. Rests on the rows.
ghost use Rattle.std.specs.Prelude.{◌≡◌, true};
ghost use Rattle.table.specs.Steps.{in_range};
ghost use Rattle.table.specs.Events.{step};
ghost use Rattle.words.specs.LentMemory.{memory_in, SameTables};
ghost use Rattle.list.specs.Acting.{left};

use crate::Acted;
use crate::actor::Actor;
use record::Refusal;
use words::Tables;

impl Actor {
    // The row of a record whose fields are in their ranges. The places of inserts and deletes, 0 to 10, stand under one range: no arm is then so deep
    // that the compiler takes it for rare and leaves its row a call, for which it would hold every record in memory.
    fn row(self, tables: &mut Tables) -> Acted
        requires { in_range self.before ≡ true }
        ensures same { SameTables tables.old tables.new }
        ensures left { left (memory_in tables.new self.sizes) result ≡
            step (memory_in tables.old self.sizes) self.process self.before }
    {
        let addresses = &mut *tables.addresses;
        let links = &mut *tables.links;
        let deleters = &mut *tables.deleters;
        let place = self.before.lost.place;
        match place {
            0..=10 => match place {
                0..=2 => match place {
                    0 => self.turned(self.row_0(links)),
                    1 => self.turned(self.row_1(addresses, links)),
                    _ => self.turned(self.row_2(links)),
                },
                3..=4 => match place {
                    3 => self.turned(self.row_3(links)),
                    _ => self.turned(self.row_4(links)),
                },
                _ => match place {
                    5 => self.turned(self.row_5(links)),
                    6 => self.turned(self.row_6(links)),
                    7 => self.turned(self.row_7(links)),
                    8 => self.turned(self.row_8(links)),
                    9 => self.turned(self.row_9(links, deleters)),
                    _ => self.turned(self.row_10(links, deleters)),
                },
            },
            11..=12 => match place {
                11 => self.turned(self.row_11(addresses, links)),
                _ => self.turned(self.row_12(links)),
            },
            13..=17 => match place {
                13 => self.turned(Some(self.row_13())),
                14 => self.turned(self.row_14(links)),
                15 => self.turned(self.row_15(links)),
                16 => self.turned(self.row_16(links, deleters)),
                _ => self.turned(self.row_17(links, deleters)),
            },
            18..=19 => match place {
                18 => self.turned(Some(self.row_18())),
                _ => self.row_19(),
            },
            _ => self.refused(Refusal::Broken),
        }
    }

    // One step of a running process: its row, or refusal 8 for a record out of its ranges.
    #[tactic(auto, using(crate::proofs::Turns::unranged))]
    pub(crate) fn step(self, tables: &mut Tables) -> Acted
        ensures same { SameTables tables.old tables.new }
        ensures left { left (memory_in tables.new self.sizes) result ≡
            step (memory_in tables.old self.sizes) self.process self.before }
    {
        if !words::in_range(self.before) {
            return self.refused(Refusal::Broken);
        }
        self.row(tables)
    }
}
