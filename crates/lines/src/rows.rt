// A line of each kind.
#![tactic(auto, using(crate::proofs::Parts::sizes), unfolding(crate::proofs::Parts::texts))]

ghost use Rattle.lines.specs.Text.{spaced};
ghost use Rattle.lines.specs.Lines.{tally_parts, totals_line, refused_line, clock_line, environment_line, attribute_line, entry_line, pending_line};
ghost use Rattle.lines.specs.Pages.{HasRoom, Writes};

use crate::page::Page;
use machine::Totals;
use state::Entry;
use steps::Tally;

// The end of the first line: how often an entry was taken, added and replaced.
fn tally_end(page: &mut Page, tally: Tally)
    requires { HasRoom (spaced (tally_parts tally)) page.old }
    ensures { Writes (spaced (tally_parts tally)) page.old page.new }
{
    page.named(b" taken", tally.taken());
    page.named(b" added", tally.added as usize);
    page.named(b" replaced", tally.replaced as usize);
    page.end_line();
}

pub fn totals_line(page: &mut Page, totals: Totals)
    requires { HasRoom (totals_line totals) page.old }
    ensures { Writes (totals_line totals) page.old page.new }
{
    page.named(b"done", totals.done as usize);
    page.named(b" refused", totals.refused as usize);
    tally_end(page, totals.tally);
}

// By number and place, since the definitions speak of these: any may be printed.
pub fn refused_line(page: &mut Page, number: u8, place: usize)
    requires { HasRoom (refused_line number place) page.old }
    ensures { Writes (refused_line number place) page.old page.new }
{
    page.named(b"refused", usize::from(number));
    page.number(place);
    page.end_line();
}

pub fn clock_line(page: &mut Page, clock: u32)
    requires { HasRoom (clock_line clock) page.old }
    ensures { Writes (clock_line clock) page.old page.new }
{
    page.named(b"clock", clock as usize);
    page.end_line();
}

pub fn environment_line(page: &mut Page, key: usize, word: u32)
    requires { HasRoom (environment_line key word) page.old }
    ensures { Writes (environment_line key word) page.old page.new }
{
    page.named(b"e", key);
    page.value(word);
    page.end_line();
}

pub fn attribute_line(page: &mut Page, agent: usize, key: usize, word: u32)
    requires { HasRoom (attribute_line agent key word) page.old }
    ensures { Writes (attribute_line agent key word) page.old page.new }
{
    page.named(b"a", agent);
    page.number(key);
    page.value(word);
    page.end_line();
}

pub fn entry_line(page: &mut Page, agent: usize, key: usize, entry: Entry)
    requires { HasRoom (entry_line agent key entry) page.old }
    ensures { Writes (entry_line agent key entry) page.old page.new }
{
    page.named(b"s", agent);
    page.number(key);
    page.value(entry.value);
    page.number(entry.stamp as usize);
    page.number(entry.writer as usize);
    page.end_line();
}

pub fn pending_line(page: &mut Page, name: &[u8], agent: usize, key: usize)
    requires { HasRoom (pending_line name.now agent key) page.old }
    ensures { Writes (pending_line name.now agent key) page.old page.new }
{
    page.named(name, agent);
    page.number(key);
    page.end_line();
}
