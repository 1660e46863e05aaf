// A file's numbers, every field but length and version in order, into a lent buffer
// (01, 'How each operation refuses': read into numbers).
#![tactic(auto)]

ghost use Rattle.std.specs.Prelude.{◌≡◌, ◌++◌, ◌≤◌, length, drop};
ghost use Rattle.market.specs.Refusals.{answered, clear, first_of};
ghost use Rattle.market.specs.Numbers.{numbers_at, certificate_file_grounds, read_case, read_case_buffer, read_certificate, read_certificate_buffer, write_case, write_case_buffer, write_certificate, write_certificate_buffer};
ghost use Rattle.fields.specs.Layout.{fields_of};
ghost use Rattle.read_numbers.specs.FileBytes.{FileBytes};
ghost use Rattle.read_numbers.specs.Reading.{filed_counts, reading_grounds, read_file, read_file_buffer, WrittenBack};

use fields::File;
use market::{Counts, LEAST_CERTIFICATE_SIZE, Refusal};

// 8, 9, 3, 11: no case is lent.
// `case_check::shape_stage` has other grounds, in another order and by other numbers: one function for both would take all of them.
#[tactic(auto, unfolding(market::specs::Numbers::certificate_file_grounds, market::specs::Refusals::first_of, market::specs::CaseFile::case_as, certificate_form::specs::Form::size_is))]
fn certificate_stage(q: &[u8]) -> Result<Counts, Refusal>
    ensures { result ≡ answered (filed_counts q.now) (first_of (certificate_file_grounds q.now)) }
{
    if !case_check::length_right(q, LEAST_CERTIFICATE_SIZE) {
        return Err(Refusal::CertificateLength);
    }
    if !case_check::version_right(q) {
        return Err(Refusal::CertificateVersion);
    }
    let n = case_check::counts_at(q);
    if !case_check::counts_right(n) {
        return Err(Refusal::Counts);
    }
    if !certificate_form::size_right(q, n) {
        return Err(Refusal::CertificateSize);
    }
    Ok(n)
}

// The numbers, field by field; what stands beyond them in the buffer stays.
fn read_numbers(file: File, b: &[u8], n: Counts, out: &mut [i64])
    requires { FileBytes file b.now n.version n.resources n.zones n.flowgates × (length (fields_of file n.version n.resources n.zones n.flowgates) ≤ length out.old) }
    ensures { out.new ≡ numbers_at (fields_of file n.version n.resources n.zones n.flowgates) b.now 5 ++ drop (length (fields_of file n.version n.resources n.zones n.flowgates)) out.old }
{
    // after length and version
    let mut at: usize = 5;
    for k in 0..file.count(n) {
        let field = file.field_at(n, k);
        out[k] = field.number_at(b, at);
        at += field.width();
    }
}

// 15, then the numbers of a file that has passed the other grounds, with its counts n.
fn hand_over(file: File, b: &[u8], n: Counts, out: &mut [i64]) -> Result<u32, Refusal>
    requires { (first_of (reading_grounds file b.now) ≡ clear) × (n ≡ filed_counts b.now) }
    ensures { (result ≡ read_file file b.now (length out.old)) × (out.new ≡ read_file_buffer file b.now out.old) }
{
    let count = file.count(n);
    if out.len() < count {
        return Err(Refusal::BufferShort);
    }
    read_numbers(file, b, n, out);
    Ok(count as u32)
}

// Reads a case into numbers: 1 to 7, then 15. This and the next are two calls of the C interface; what they share is `hand_over`.
pub fn read_case(b: &[u8], out: &mut [i64]) -> Result<u32, Refusal>
    ensures { (result ≡ read_case b.now (length out.old)) × (out.new ≡ read_case_buffer b.now out.old) × WrittenBack write_case write_case_buffer b.now out.new result }
{
    let n = case_check::case_stage(b)?;
    hand_over(File::Case, b, n, out)
}

// Reads a certificate into numbers: 8, 9, 3, 11, then 15.
pub fn read_certificate(q: &[u8], out: &mut [i64]) -> Result<u32, Refusal>
    ensures { (result ≡ read_certificate q.now (length out.old)) × (out.new ≡ read_certificate_buffer q.now out.old) × WrittenBack write_certificate write_certificate_buffer q.now out.new result }
{
    let n = certificate_stage(q)?;
    hand_over(File::Certificate, q, n, out)
}
