// A table that is known to be sound.
ghost use Rattle.std.specs.Prelude.{◌≡◌};
ghost use Rattle.slots.specs.Owners.{owner_of};
ghost use Rattle.seats.specs.declared.table.Table.{Table};
ghost use Rattle.seats.specs.Tables.{fresh};
ghost use Rattle.table.specs.Answers.{said_opened, said_stepped};
ghost use Rattle.table.specs.Calls.{open_call, step_call, step_image};
ghost use Rattle.upkeep.specs.SoundTables.{Stands, Tested};

use course::Word;
use seats::Table;
use slots::Refusal;
use std::marker::Model;

// Its calls do what those on a table do, and test nothing: every call keeps a table sound.
#[derive(Drop)]
pub struct SoundTable {
    table: Table,
}

impl Model for SoundTable {
    ghost Value = { Table };

    ghost view = { λ s. s.table };

    ghost invariant = { λ s. Stands owner_of s.table };
}

// A table that comes from elsewhere is tested once.
impl TryFrom<Table> for SoundTable {
    type Error = Refusal;

    ghost try_from_gives = { Tested };

    fn try_from(table: Table) -> Result<Self, Refusal> {
        soundness::check(&table)?;
        Ok(SoundTable { table })
    }
}

impl SoundTable {
    pub fn fresh() -> SoundTable
        ensures { result ≡ fresh }
    {
        SoundTable {
            table: Table::fresh(),
        }
    }

    // For `result` and the slot views.
    pub fn table(&self) -> &Table
        ensures { result.now ≡ self.now }
    {
        &self.table
    }

    pub fn open(&mut self, seat: u32, reading: u32, frame: &[u8]) -> Result<(), Refusal>
        ensures { said_opened result self.new ≡ open_call owner_of self.old seat reading frame.now }
    {
        table::sound_open(&mut self.table, seat, reading, frame)
    }

    pub fn step(&mut self, image: &mut [u32], seat: u32) -> Result<Word, Refusal>
        ensures answer { said_stepped result self.new ≡ step_call owner_of self.old image.old seat }
        ensures image { image.new ≡ step_image owner_of self.old image.old seat }
    {
        table::sound_step(&mut self.table, image, seat)
    }
}
