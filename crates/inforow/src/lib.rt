// The table of a StreamerInfo record: six numbers for every element.
// Every public function takes any input and has no precondition.
#![tactic(auto)]

ghost use Rattle.std.specs.Prelude.{◌≡◌};
ghost use Rattle.inforow.specs.Row.{put_row};

// A row: class index, kind, offsets of the first length byte of the name and of the type name, fType and fArrayLength.
#[derive(Clone, Copy)]
pub struct Row {
    pub class: u32,
    pub kind: u32,
    pub name: u32,
    pub typename: u32,
    pub ftype: u32,
    pub length: u32,
}

// Writes the six numbers of row n, where there is room for all; nothing else is changed.
#[tactic(auto, using(crate::proofs::Tables::no_room, crate::proofs::Tables::row_put))]
pub fn put_row(table: &mut [u32], n: usize, row: Row)
    ensures { table.new ≡ put_row table.old n row }
{
    if table.len() / 6 <= n {
        return;
    }
    let at = n * 6;
    let numbers = [
        row.class,
        row.kind,
        row.name,
        row.typename,
        row.ftype,
        row.length,
    ];
    table[at..at + 6].copy_from_slice(&numbers);
}
