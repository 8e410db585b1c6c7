// Lent tables: those of the audit have 64-bit numbers, the info table has 32-bit ones, the scratch of salvage has bytes. Every
// public function takes any input and has no precondition.
#![tactic(auto)]

ghost use Rattle.std.specs.Prelude.{◌≡◌};
ghost use Rattle.table.specs.Table.{cleared_with};

// The numbers of a table, each with its 0. `fill` of std asks for a clone that cannot fail, which `Copy` does not say.
pub trait Number: Copy {
    ghost ZERO: { Self };

    const ZERO: Self;
}

impl Number for u8 {
    ghost ZERO = { 0 };

    const ZERO: u8 = 0;
}

impl Number for u32 {
    ghost ZERO = { 0 };

    const ZERO: u32 = 0;
}

impl Number for u64 {
    ghost ZERO = { 0 };

    const ZERO: u64 = 0;
}

// Sets every number of a table to 0 from an entry on; behind the table's end there is nothing to set.
pub fn clear<T: Number>(table: &mut [T], from: usize)
    ensures { table.new ≡ cleared_with T.ZERO table.old from }
{
    if from < table.len() {
        for number in &mut table[from..] {
            *number = T::ZERO;
        }
    }
}
