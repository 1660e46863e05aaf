// The functions that C hosts call (include/nostwier.h): thin, each over the proved function of its crate.
#![tactic(auto)]

ghost use Rattle.std.specs.Prelude.{◌≡◌, length};
ghost use Rattle.market.specs.Refusals.{case_number_of, answer_of};
ghost use Rattle.market.specs.Outcome.{case_answer, price_answer, price_buffer, charge_answer, charge_buffer};
ghost use Rattle.market.specs.Numbers.{read_case, read_case_buffer, read_certificate, read_certificate_buffer, write_case, write_case_buffer, write_certificate, write_certificate_buffer};
ghost use Rattle.nostwier.specs.Reported.{Reported};
ghost use Rattle.nostwier.specs.Transferred.{NumbersRead, NumbersWritten};

use market::{Answer, CheckResult, Count};

// 0 for a valid case, else the number of its refusal.
#[unsafe(no_mangle)]
pub extern "C" fn nostwier_check_case(c: &[u8]) -> u32
    ensures { result ≡ case_number_of (case_answer c.now) }
{
    // a bare number, which `From` cannot be written for: neither it nor `Result` is ours
    match case_check::check_case(c) {
        Ok(()) => 0,
        Err(why) => why.number(),
    }
}

// Cost, bound and gap of an accepted certificate, else the number and place of its refusal.
#[unsafe(no_mangle)]
pub extern "C" fn nostwier_check_certificate(c: &[u8], q: &[u8]) -> CheckResult
    ensures { Reported c.now q.now result }
{
    outcomes::check_certificate(c, q).into()
}

// ---- numbers into a lent buffer

// R LMPs and four prices a zone, from the buffer's start on; the rest of it, and all of it on a refusal, stays as it was.
#[unsafe(no_mangle)]
pub extern "C" fn nostwier_prices(c: &[u8], q: &[u8], out: &mut [i64]) -> Answer
    ensures { (result ≡ answer_of (price_answer c.now q.now (length out.old))) × (out.new ≡ price_buffer c.now q.now out.old) }
{
    outcomes::deliver_prices(c, q, out).into()
}

// 21 + 4Z + F + 19R charges, from the buffer's start on; the rest of it, and all of it on a refusal, stays as it was.
#[unsafe(no_mangle)]
pub extern "C" fn nostwier_charges(c: &[u8], q: &[u8], out: &mut [i64]) -> Answer
    ensures { (result ≡ answer_of (charge_answer c.now q.now (length out.old))) × (out.new ≡ charge_buffer c.now q.now out.old) }
{
    outcomes::deliver_charges(c, q, out).into()
}

// ---- numbers out of files, and into files

// A case's numbers, every field but length and version in order.
#[unsafe(no_mangle)]
pub extern "C" fn nostwier_read_case(c: &[u8], out: &mut [i64]) -> Count
    ensures { NumbersRead read_case read_case_buffer write_case write_case_buffer c.now out.old out.new result }
{
    read_numbers::read_case(c, out).into()
}

// A certificate's numbers.
#[unsafe(no_mangle)]
pub extern "C" fn nostwier_read_certificate(q: &[u8], out: &mut [i64]) -> Count
    ensures { NumbersRead read_certificate read_certificate_buffer write_certificate write_certificate_buffer q.now out.old out.new result }
{
    read_numbers::read_certificate(q, out).into()
}

// The case whose numbers are v.
#[unsafe(no_mangle)]
pub extern "C" fn nostwier_write_case(v: &[i64], out: &mut [u8]) -> Count
    ensures { NumbersWritten read_case read_case_buffer write_case write_case_buffer v.now out.old out.new result }
{
    write_numbers::write_case(v, out).into()
}

// The certificate whose numbers are v.
#[unsafe(no_mangle)]
pub extern "C" fn nostwier_write_certificate(v: &[i64], out: &mut [u8]) -> Count
    ensures { NumbersWritten read_certificate read_certificate_buffer write_certificate write_certificate_buffer v.now out.old out.new result }
{
    write_numbers::write_certificate(v, out).into()
}
