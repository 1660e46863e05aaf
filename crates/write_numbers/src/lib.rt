// A list of signed 64-bit numbers, every field but length and version in order, into a lent buffer as a file
// (01, 'How each operation refuses': write from signed 64-bit numbers).
#![tactic(auto)]

ghost use Rattle.std.specs.Prelude.{◌≡◌, true, ◌++◌, ◌+◌, ◌<◌, ◌≤◌, length, drop, get_or, pos};
ghost use Rattle.std.specs.Int.Signed.{le_z};
ghost use Rattle.market.specs.Version.{written_version};
ghost use Rattle.market.specs.Bytes.{within_ℤ};
ghost use Rattle.market.specs.CaseCheck.{most_resources, CountsWithin, largest_case_size};
ghost use Rattle.market.specs.Refusals.{answered, clear, first_of};
ghost use Rattle.market.specs.Numbers.{field_width, field_bytes, bytes_of, numbers_fit, file_of, count_in, counts_in_range, list_grounds, write_case, write_case_buffer, write_certificate, write_certificate_buffer, read_case, read_case_buffer, read_certificate, read_certificate_buffer};
ghost use Rattle.wire.specs.Within.{Within, written};
ghost use Rattle.fields.specs.declared.File.TheVariants.{Case};
ghost use Rattle.fields.specs.Layout.{field_of, fields_of};
ghost use Rattle.write_numbers.specs.Listed.{Fits, Listed};
ghost use Rattle.write_numbers.specs.Writing.{listed_counts, writing_grounds, write_file, write_file_buffer, ReadBack};

use fields::{Field, File};
use market::{Counts, Refusal, Version};

// The version of the files that are written: counts and sizes follow from it.
const WRITTEN_VERSION: u8 = 1;

// ---- the bytes of a file
// A number into its field; the other bytes stay as they are.
#[tactic(auto, using(crate::proofs::Fitting::unsigned_bytes))]
fn put_number(out: &mut [u8], at: usize, field: Field, v: i64)
    requires { Within out.old at (field_width (field_of field)) × Fits (field_of field) v }
    ensures { out.new ≡ written at (field_bytes (field_of field) v) out.old }
{
    match field {
        Field::U8 => wire::put_u8(out, at, v as u32),
        Field::U16 => wire::put_u16(out, at, v as u32),
        Field::U32 => wire::put_u32(out, at, v as u32),
        Field::I16 => wire::put_i16(out, at, v),
        Field::I32 => wire::put_i32(out, at, v),
    }
}

// Numbers that have passed 16 and 3 as those of a file, with their counts.
#[derive(Clone, Copy)]
struct NumberList<'a> {
    file: File,
    numbers: &'a [i64],
    counts: Counts,
    ghost listed: { Listed file numbers.now counts.version counts.resources counts.zones counts.flowgates },
}

impl NumberList<'_> {
    ghost use Rattle.write_numbers.specs.InList.{fields_in, size_in};

    // How many bytes the file has.
    #[tactic(auto, using(crate::proofs::Handed::file_sizes))]
    fn size(&self) -> usize
        ensures { (result ≡ size_in self.now) × (result ≤ largest_case_size self.now.counts.version) }
    {
        let n = self.counts;
        match self.file {
            File::Case => market::case_size(n),
            File::Certificate => market::certificate_size(n),
        }
    }

    // Field by field, after length and version.
    fn put_numbers(&self, out: &mut [u8])
        requires { size_in self.now ≤ length out.old }
        ensures { out.new ≡ written 5 (bytes_of (fields_in self.now) self.now.numbers.now) out.old }
    {
        let mut at: usize = 5;
        for (k, &number) in self.numbers.iter().enumerate() {
            let field = self.file.field_at(self.counts, k);
            put_number(out, at, field, number);
            at += field.width();
        }
    }

    // The file: length, version, the numbers; what stands beyond them in the buffer stays.
    fn put(&self, out: &mut [u8])
        requires { size_in self.now ≤ length out.old }
        ensures { out.new ≡ file_of written_version (fields_in self.now) self.now.numbers.now ++ drop (size_in self.now) out.old }
    {
        wire::put_u32(out, 0, self.size() as u32 - 4);
        wire::put_u8(out, 4, u32::from(WRITTEN_VERSION));
        self.put_numbers(out);
    }
}

// ---- 16, 3, 16
fn count_right(count: i64, least: i64, most: usize) -> bool
    requires { most ≤ most_resources }
    ensures { result ≡ within_ℤ least (pos most) count }
{
    (least..=most as i64).contains(&count)
}

// Of a list's numbers, which are no counts yet: a file's are tested by `case_check::counts_right`.
#[tactic(auto, unfolding(market::specs::Numbers::counts_in_range))]
fn counts_in_range(v: &[i64]) -> bool
    requires { 3 ≤ length v.now }
    ensures { result ≡ counts_in_range v.now }
{
    count_right(v[0], 1, market::MOST_RESOURCES)
        && count_right(v[1], 1, market::MOST_ZONES)
        && count_right(v[2], 0, market::MOST_FLOWGATES)
}

fn count_in(v: &[i64], k: usize) -> usize
    requires { (k < length v.now) × (le_z (pos 0) (get_or v.now k (pos 0)) ≡ true) }
    ensures { result ≡ count_in v.now k }
{
    v[k] as usize
}

// R, Z and F that have passed 3, of the version that is written.
fn counts_in(v: &[i64]) -> Counts
    requires { (3 ≤ length v.now) × (counts_in_range v.now ≡ true) }
    ensures { result ≡ listed_counts v.now }
{
    Counts {
        version: Version::nearest(WRITTEN_VERSION),
        resources: count_in(v, 0),
        zones: count_in(v, 1),
        flowgates: count_in(v, 2),
    }
}

fn numbers_fit(file: File, v: &[i64], n: Counts) -> bool
    requires { CountsWithin n.resources n.zones n.flowgates }
    ensures { result ≡ numbers_fit (fields_of file n.version n.resources n.zones n.flowgates) v.now }
{
    let count = file.count(n);
    if v.len() != count {
        return false;
    }
    (0..count).all(|k| file.field_at(n, k).fits(v[k]))
}

// Put into each of its two callers, where the file is known: with a file that is not, each number's field is looked for in both, and
// writing a certificate takes some three times the instructions.
#[inline(always)]
#[tactic(auto, unfolding(market::specs::Numbers::list_grounds, market::specs::Numbers::fields_for, market::specs::Refusals::first_of))]
fn list_stage(file: File, v: &[i64]) -> Result<Counts, Refusal>
    ensures { result ≡ answered (listed_counts v.now) (first_of (list_grounds (fields_of file) written_version v.now)) }
{
    if v.len() < 3 {
        return Err(Refusal::NumberList);
    }
    if !counts_in_range(v) {
        return Err(Refusal::Counts);
    }
    let n = counts_in(v);
    if !numbers_fit(file, v, n) {
        return Err(Refusal::NumberList);
    }
    Ok(n)
}

// ---- 5, 6, 7
// Of the file that is to be written, put into bytes that no one reads afterwards. Kept apart from `case_stage`: in one function with the
// list's stage the bytes are filled twice.
fn filed_stage(v: &[i64], counts: Counts) -> Result<Counts, Refusal>
    requires { Listed Case v.now counts.version counts.resources counts.zones counts.flowgates }
    ensures { result ≡ answered (listed_counts v.now) (first_of (writing_grounds Case v.now)) }
{
    let list = NumberList {
        file: File::Case,
        numbers: v,
        counts,
    };
    let mut bytes = [0u8; market::LARGEST_CASE_SIZE];
    let file = &mut bytes[..list.size()];
    list.put(file);
    case_check::case_stage(file)
}

fn case_stage(v: &[i64]) -> Result<Counts, Refusal>
    ensures { result ≡ answered (listed_counts v.now) (first_of (writing_grounds Case v.now)) }
{
    let counts = list_stage(File::Case, v)?;
    filed_stage(v, counts)
}

// ---- the operations
// 15, then the file of numbers that have passed the other grounds, with their counts.
fn hand_over(file: File, v: &[i64], counts: Counts, out: &mut [u8]) -> Result<u32, Refusal>
    requires { (first_of (writing_grounds file v.now) ≡ clear) × (counts ≡ listed_counts v.now) }
    ensures { (result ≡ write_file file v.now (length out.old)) × (out.new ≡ write_file_buffer file v.now out.old) }
{
    let list = NumberList {
        file,
        numbers: v,
        counts,
    };
    let size = list.size();
    if out.len() < size {
        return Err(Refusal::BufferShort);
    }
    list.put(out);
    Ok(size as u32)
}

// Writes a case from numbers: 16, 3, 16, 5, 6, 7, then 15. This and the next are two calls of the C interface; what they share is
// `hand_over`.
pub fn write_case(v: &[i64], out: &mut [u8]) -> Result<u32, Refusal>
    ensures { (result ≡ write_case v.now (length out.old)) × (out.new ≡ write_case_buffer v.now out.old) × ReadBack read_case read_case_buffer v.now out.new result }
{
    let n = case_stage(v)?;
    hand_over(File::Case, v, n, out)
}

// Writes a certificate from numbers: 16, 3, 16, then 15.
pub fn write_certificate(v: &[i64], out: &mut [u8]) -> Result<u32, Refusal>
    ensures { (result ≡ write_certificate v.now (length out.old)) × (out.new ≡ write_certificate_buffer v.now out.old) × ReadBack read_certificate read_certificate_buffer v.now out.new result }
{
    let n = list_stage(File::Certificate, v)?;
    hand_over(File::Certificate, v, n, out)
}
