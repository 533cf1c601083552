// The table: the seats, and the slot table.
ghost use Rattle.std.specs.Prelude.{◌≡◌};
ghost use Rattle.seats.specs.Tables.{fresh};

use crate::{SEATS, Seat, SlotTable};

#[derive(Clone, Copy, Debug, PartialEq, Eq)]
pub struct Table {
    pub seats: [Seat; SEATS],
    pub slots: SlotTable,
}

impl Table {
    #[tactic(auto, unfolding(crate::specs::Tables::fresh, crate::specs::SlotTables::all_free, crate::specs::Queues::no_one))]
    pub fn fresh() -> Table
        ensures { result ≡ fresh }
    {
        let blank = Seat::blank();
        Table {
            seats: [blank; SEATS],
            slots: SlotTable::FREE,
        }
    }
}
