// The C interface: thin functions over the proved crates, with the same promises. A slice is passed as a
// pointer and a length. The number is returned; place and count are written in every case.
#![tactic(auto)]

ghost use Rattle.std.specs.Prelude.{◌≡◌, Ok};
ghost use Rattle.wire.specs.Fault.{answer_of};
ghost use Rattle.key.specs.Piece.{size_of};
ghost use Rattle.version.specs.Version.{library_version};
ghost use Rattle.date.specs.Date.{Packs};
ghost use Rattle.key.specs.Writer.{Writes};
ghost use Rattle.streamer.specs.Info.{Informs};
ghost use Rattle.rules.specs.Free.{compared};
ghost use Rattle.audit.specs.Tables.{Audits, AuditsSalvaged, AuditsWithin};
ghost use Rattle.view.specs.View.{Views};
ghost use Rattle.salvage.specs.Salvage.{Salvages};
ghost use Rattle.card.specs.Promise.{ReadsCard};
ghost use Rattle.cardwriter.specs.Write.{WritesCard};
ghost use Rattle.capi.specs.Told.{told, date_of, Unpacked, fields_of, stored_cycle, record_list, piece_list, Shows};

use date::Date;
use key::header::{Fields, Key};
use key::piece::Piece;
use view::Row;
use wire::Answer;
use wire::fault::Fault;

// Tells C what was counted, or the refusal: number, place and count.
fn tell(r: Result<usize, Fault>, place: &mut u64, count: &mut u64) -> u64
    ensures { told result place count ≡ answer_of r }
{
    let a = Answer::from(r);
    *place = a.place;
    *count = a.count;
    a.number
}

// The version of the library.
#[unsafe(no_mangle)]
pub extern "C" fn rootmap_version() -> u64
    ensures { result ≡ library_version }
{
    version::current()
}

// Packs a date: 0 and the packed value as count, or 18.
#[unsafe(no_mangle)]
pub extern "C" fn rootmap_pack_date(
    year: u32,
    month: u32,
    day: u32,
    hour: u32,
    minute: u32,
    second: u32,
    place: &mut u64,
    count: &mut u64,
) -> u64
    ensures { Packs (date_of year month day hour minute second) (told result place count) }
{
    let packed = date::pack_date(Date {
        year,
        month,
        day,
        hour,
        minute,
        second,
    });
    tell(packed.map(|n| n as usize), place, count)
}

// Unpacks any 32 bits: year, month, day, hour, minute, second.
#[unsafe(no_mangle)]
pub extern "C" fn rootmap_unpack_date(packed: u32, fields: &mut [u32; 6])
    ensures { Unpacked packed fields.new }
{
    let d = date::unpack_date(packed);
    *fields = [d.year, d.month, d.day, d.hour, d.minute, d.second];
}

// The stored bits of a cycle.
fn stored_cycle(z: i32) -> u64
    ensures { result ≡ stored_cycle z }
{
    match wire::number::bits_of(z) {
        Some(n) => n as u64,
        None => 0,
    }
}

// Writes a record's fields and where its strings stand.
fn show_record(k: Key, fields: &mut [u64; 15])
    ensures { fields.new ≡ record_list k }
{
    let cycle = stored_cycle(k.cycle);
    let class = k.class;
    let name = k.name;
    let title = k.title;
    *fields = [
        1,
        k.nbytes as u64,
        k.version as u64,
        k.objlen as u64,
        k.datime as u64,
        k.keylen as u64,
        cycle,
        k.seekkey,
        k.seekpdir,
        class.start as u64,
        class.len as u64,
        name.start as u64,
        name.len as u64,
        title.start as u64,
        title.len as u64,
    ];
}

// The bytes that a piece takes.
fn size_of(piece: Piece) -> usize
    ensures { result ≡ size_of (Ok piece) }
{
    match piece {
        Piece::Record(k) => k.nbytes as usize,
        Piece::Gap(n) => n as usize,
    }
}

// Writes the fifteen numbers of a piece; a refusal's are zeros.
fn show_piece(piece: Result<Piece, Fault>, fields: &mut [u64; 15])
    ensures { fields.new ≡ piece_list piece }
{
    *fields = [0; 15];
    match piece {
        Ok(Piece::Record(k)) => show_record(k, fields),
        Ok(Piece::Gap(n)) => {
            fields[0] = 2;
            fields[1] = n as u64;
        }
        Err(_) => (),
    }
}

// The piece at a place: 0 and its size as count, with its fields; or 5 or 6 at the place, with zeros.
#[unsafe(no_mangle)]
pub extern "C" fn rootmap_read_piece(
    file: &[u8],
    at: u64,
    fields: &mut [u64; 15],
    place: &mut u64,
    count: &mut u64,
) -> u64
    ensures { Shows file.now at fields.new (told result place count) }
{
    let piece = key::piece::read_piece(file, at as usize);
    show_piece(piece, fields);
    tell(piece.map(size_of), place, count)
}

// Writes a key header at seek_key: 0 and KeyLen as count; or 15, 16 or 17, with the buffer unchanged.
#[unsafe(no_mangle)]
pub extern "C" fn rootmap_write_key(
    nbytes: u32,
    version: u32,
    objlen: u32,
    datime: u32,
    cycle: i32,
    seek_key: u64,
    seek_pdir: u64,
    class_name: &[u8],
    name: &[u8],
    title: &[u8],
    buf: &mut [u8],
    place: &mut u64,
    count: &mut u64,
) -> u64
    ensures { Writes (fields_of nbytes version objlen datime cycle seek_key seek_pdir)
        class_name.now name.now title.now buf.old buf.new (told result place count) }
{
    let f = Fields {
        nbytes,
        version,
        objlen,
        datime,
        cycle,
        seekkey: seek_key,
        seekpdir: seek_pdir,
    };
    let written = writer::write_key(f, class_name, name, title, buf);
    tell(written, place, count)
}

// The rows of the StreamerInfo record at a place, six numbers each: 0 and the rows as count; or 5, 6 or 19 to 24, with zeros.
#[unsafe(no_mangle)]
pub extern "C" fn rootmap_info(
    file: &[u8],
    at: u64,
    table: &mut [u32],
    place: &mut u64,
    count: &mut u64,
) -> u64
    ensures { Informs file at table (told result place count) }
{
    tell(streamer::read_info(file, at as usize, table), place, count)
}

// Audits a whole file: 0 and the number of pieces, with a row a piece in the three tables, or a refusal.
#[unsafe(no_mangle)]
pub extern "C" fn rootmap_audit(
    file: &[u8],
    start: &mut [u64],
    part: &mut [u64],
    owner: &mut [u64],
    place: &mut u64,
    count: &mut u64,
) -> u64
    ensures { Audits file start part owner (told result place count) }
{
    tell(audit::audit(file, start, part, owner), place, count)
}

// The second audit, for a file that was salvaged: the same without the comparison of free segments with the gaps, and with nothing else left
// out.
#[unsafe(no_mangle)]
pub extern "C" fn rootmap_audit_salvaged(
    file: &[u8],
    start: &mut [u64],
    part: &mut [u64],
    owner: &mut [u64],
    place: &mut u64,
    count: &mut u64,
) -> u64
    ensures { AuditsSalvaged file start part owner (told result place count) }
{
    let second = audit::audit_salvaged(file, start, part, owner);
    tell(second, place, count)
}

// Audits a whole file with the list's length for room too, and shows the rows in the list: start, size, part and owner of each piece, then
// zeros.
#[unsafe(no_mangle)]
pub extern "C" fn rootmap_view(
    file: &[u8],
    start: &mut [u64],
    part: &mut [u64],
    owner: &mut [u64],
    list: &mut [Row],
    place: &mut u64,
    count: &mut u64,
) -> u64
    ensures { Views file start part owner list (told result place count) }
{
    let limit = list.len();
    let seen = audit::audit_within(file, start, part, owner, limit, true);
    let number = tell(seen, place, count);
    view::show(file, start, part, owner, list);
    number
}

// Salvages a file whose chain is broken: 0, the first fault p and the place q after it from which pieces fill the file to its end, with a gap
// from p to q written at p; of a good chain 0, END and END; or 1 to 4, or 27 at p, with the buffer as it was. seen is a scratch, one bit a
// place, of any length: it changes no answer, and is zeros afterwards.
#[unsafe(no_mangle)]
pub extern "C" fn rootmap_salvage(
    buf: &mut [u8],
    seen: &mut [u8],
    place: &mut u64,
    count: &mut u64,
) -> u64
    ensures { Salvages buf seen (told result place count) }
{
    match salvage::salvage(buf, seen) {
        Ok(mend) => {
            *place = mend.from as u64;
            *count = mend.to as u64;
            0
        }
        Err(f) => tell(Err(f), place, count),
    }
}

// Audits a file and writes its card into an output: 0, 0 and the card's length, with the audit's rows in the tables; or the audit's own
// refusal, or 17, with the output as it was and the tables all zero. The reader gives the file back from the card.
#[unsafe(no_mangle)]
pub extern "C" fn rootmap_card_write(
    file: &[u8],
    card: &mut [u8],
    start: &mut [u64],
    part: &mut [u64],
    owner: &mut [u64],
    place: &mut u64,
    count: &mut u64,
) -> u64
    ensures { WritesCard file card start part owner (told result place count) }
{
    let wrote = cardwriter::write_card(file, card, start, part, owner);
    tell(wrote, place, count)
}

// Reads a card into an output: 0, 0 and the file's length; or 28 to 31, or 17, with the output as it was. A card that is taken is refused
// once any one byte of it is changed.
#[unsafe(no_mangle)]
pub extern "C" fn rootmap_card_read(
    card: &[u8],
    out: &mut [u8],
    place: &mut u64,
    count: &mut u64,
) -> u64
    ensures { ReadsCard card.now out.old out.new (told result place count) }
{
    tell(card::read_card(card, out), place, count)
}
