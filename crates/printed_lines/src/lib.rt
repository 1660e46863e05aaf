// The lines that the program prints, of a refusal or of an accepted certificate. Each function adds its own to a text, which has
// to have room for them.
#![tactic(auto)]

ghost use Rattle.std.specs.Prelude.{Ok, ◌*◌, ◌<◌, length};
ghost use Rattle.arith.specs.Sums.{upto, across};
ghost use Rattle.market.specs.CaseCheck.{most_resources, most_zones};
ghost use Rattle.market.specs.Program.{refusal_line, resource_line, zone_line, report as reportOf};
ghost use Rattle.decimals.specs.Written.{HasRoom, Adds};
ghost use Rattle.printed_lines.specs.Lines.{value_line, head_lines, resource_text, zone_text, schedule_lines};
ghost use Rattle.printed_lines.specs.Room.{most_value_line, most_head, most_schedule, most_resource_line, most_zone_line, most_refusal, most_text};
ghost use Rattle.prices.specs.PricedCase.{the_case};
ghost use Rattle.certificate_records.specs.Reader.{certificate_in};

use decimals::{Label, Text};
use market::{Amounts, Availability, Grains, Millicents, Refusal, Valuation};
use prices::{PricedCase, ZonePrices};

// `refused N` or `refused N PLACE`.
pub fn refusal_line(why: Refusal, text: &mut Text<'_>)
    requires { HasRoom most_refusal text.old }
    ensures { Adds (refusal_line why) text.old text.new }
{
    let number = i64::from(why.number());
    let place = why.place();
    // A 0 is no place, as `Program.place_figures` has it: a match of the refusals would print the 0 of an `AboveBound(0)`.
    if place == 0 {
        return text.line(Label::Word(b"refused"), &[number]);
    }
    text.line(Label::Word(b"refused"), &[number, i64::from(place)]);
}

// ---- cost, bound and gap

fn value_line(word: &[u8], v: Grains, text: &mut Text<'_>)
    requires { HasRoom (most_value_line (length word.now)) text.old }
    ensures { Adds (value_line word.now v) text.old text.new }
{
    text.line(Label::Word(word), &[v.0]);
}

fn head_lines(v: Valuation, text: &mut Text<'_>)
    requires { HasRoom most_head text.old }
    ensures { Adds (head_lines v) text.old text.new }
{
    value_line(b"cost", v.cost, text);
    value_line(b"bound", v.bound, text);
    value_line(b"gap", v.gap, text);
}

// ---- resources

fn resource_text(
    i: usize,
    availability: Availability,
    a: Amounts,
    price: Millicents,
    text: &mut Text<'_>,
)
    requires { (i < most_resources) × HasRoom most_resource_line text.old }
    ensures { Adds (resource_text i availability a price) text.old text.new }
{
    let on_line = availability.printed();
    let figures = [
        on_line,
        a.energy.0,
        a.regulation.0,
        a.contingency.0,
        a.on_line_short_term.0,
        a.off_line_short_term.0,
        price.0,
    ];
    text.line(Label::Number(i as i64 + 1), &figures);
}

fn resource_line(priced: &PricedCase<'_>, i: usize, text: &mut Text<'_>)
    requires { (i < priced.now.case.resources) × HasRoom most_resource_line text.old }
    ensures { Adds (resource_line (the_case priced.now) (certificate_in priced.now.certificate) i) text.old text.new }
{
    let record = priced.case.resource(i);
    let availability = limits::availability_of(record);
    let a = priced.certificate.amounts(i);
    let price = priced.lmp(i);
    resource_text(i, availability, a, price, text);
}

// The loop over the zones stays beside this one: one function for both would take the line as a closure, whose contract says for
// every text what a call adds to it, in place of a body of one call.
fn resource_lines(priced: &PricedCase<'_>, text: &mut Text<'_>)
    requires { HasRoom (most_resource_line * priced.now.case.resources) text.old }
    ensures { Adds (across (resource_line (the_case priced.now) (certificate_in priced.now.certificate)) (upto priced.now.case.resources)) text.old text.new }
{
    for i in 0..priced.case.resources {
        resource_line(priced, i, text);
    }
}

// ---- zones

fn zone_text(zone: usize, p: ZonePrices, text: &mut Text<'_>)
    requires { (zone < most_zones) × HasRoom most_zone_line text.old }
    ensures { Adds (zone_text zone p) text.old text.new }
{
    let number = zone as i64 + 1;
    let figures = [
        number,
        p.regulating.0,
        p.spinning.0,
        p.supplemental.0,
        p.short_term.0,
    ];
    text.line(Label::Word(b"zone"), &figures);
}

fn zone_line(priced: &PricedCase<'_>, zone: usize, text: &mut Text<'_>)
    requires { (zone < priced.now.case.zones) × HasRoom most_zone_line text.old }
    ensures { Adds (zone_line (certificate_in priced.now.certificate) zone) text.old text.new }
{
    let p = priced.zone_prices(zone);
    zone_text(zone, p, text);
}

fn zone_lines(priced: &PricedCase<'_>, text: &mut Text<'_>)
    requires { HasRoom (most_zone_line * priced.now.case.zones) text.old }
    ensures { Adds (across (zone_line (certificate_in priced.now.certificate)) (upto priced.now.case.zones)) text.old text.new }
{
    for zone in 0..priced.case.zones {
        zone_line(priced, zone, text);
    }
}

// ---- the whole

// What follows cost, bound and gap.
fn schedule_lines(priced: &PricedCase<'_>, text: &mut Text<'_>)
    requires { HasRoom most_schedule text.old }
    ensures { Adds (schedule_lines (the_case priced.now) (certificate_in priced.now.certificate)) text.old text.new }
{
    resource_lines(priced, text);
    zone_lines(priced, text);
}

pub fn accepted_text(priced: &PricedCase<'_>, v: Valuation, text: &mut Text<'_>)
    requires { HasRoom most_text text.old }
    ensures { Adds (reportOf (the_case priced.now) (certificate_in priced.now.certificate) (Ok v)) text.old text.new }
{
    head_lines(v, text);
    schedule_lines(priced, text);
}
