// The program's text, from the bytes of its input on: the lines of an accepted certificate, or its refusal.
#![tactic(auto)]

ghost use Rattle.std.specs.Prelude.{◌≡◌, ◌+◌, min, length};
ghost use Rattle.market.specs.Bytes.{u32_at};
ghost use Rattle.market.specs.CaseFile.{case_of};
ghost use Rattle.market.specs.Certificate.{certificate_of};
ghost use Rattle.market.specs.Outcome.{outcome};
ghost use Rattle.market.specs.Program.{printed, report as reportOf};
ghost use Rattle.decimals.specs.Written.{HasRoom, Adds};
ghost use Rattle.printed_lines.specs.Room.{most_text};
ghost use Rattle.report.specs.Buffer.{report_count, report_buffer};

use decimals::{MOST_DECIMAL, MOST_FIGURE, Text};
use market::{MOST_RESOURCES, MOST_ZONES, Refusal};
use prices::PricedCase;

// No text is longer: it has the lines 'cost', 'bound' and 'gap', then those of the resources (number, on-line, e g c s o, LMP)
// and of the zones (the word, number, four prices), each number at its longest.
pub const MOST_TEXT: usize = 4
    + 5
    + 3
    + 3 * (MOST_FIGURE + 1)
    + MOST_RESOURCES * (MOST_DECIMAL + 7 * MOST_FIGURE + 1)
    + MOST_ZONES * (4 + 5 * MOST_FIGURE + 1);

// The program takes no more.
pub const MOST_INPUT: usize = 32768;

// Of a case and a certificate.
fn outcome_text(b: &[u8], q: &[u8], text: &mut Text<'_>)
    requires { HasRoom most_text text.old }
    ensures { Adds (reportOf (case_of b.now) (certificate_of q.now) (outcome b.now q.now)) text.old text.new }
{
    match outcomes::check_certificate(b, q) {
        Ok(v) => {
            let n = case_check::counts_at(b);
            let priced = PricedCase::new(b, q, n);
            printed_lines::accepted_text(&priced, v, text);
        }
        Err(why) => printed_lines::refusal_line(why, text),
    }
}

// How many bytes the case has: the first 4 + length, or all if fewer.
fn case_end(input: &[u8]) -> usize
    ensures { result ≡ min (4 + u32_at input.now 0) (length input.now) }
{
    let all = input.len();
    if all < 4 {
        return all;
    }
    let after = wire::u32_at(input, 0) as usize;
    all.min(4 + after)
}

// Of any input: a case, then a certificate.
fn input_text(input: &[u8], text: &mut Text<'_>)
    requires { HasRoom most_text text.old }
    ensures { Adds (printed input.now) text.old text.new }
{
    if input.len() > MOST_INPUT {
        return printed_lines::refusal_line(Refusal::InputLength, text);
    }
    let at = case_end(input);
    outcome_text(&input[..at], &input[at..], text);
}

// What the program prints for its input, at the front of a lent buffer; how many bytes that is. What stands beyond them stays as
// it was. Into a buffer below `MOST_TEXT` bytes nothing is written.
pub fn report(input: &[u8], out: &mut [u8]) -> usize
    ensures { (result ≡ report_count input.now (length out.old)) × (out.new ≡ report_buffer input.now out.old) }
{
    if out.len() < MOST_TEXT {
        return 0;
    }
    let mut text = Text::new(out);
    input_text(input, &mut text);
    text.length
}
