// Reads a scan record from standard input and prints its ledger: a heading, then a line for each gate of the record, ray by ray, with
// one space between the fields. A record that is refused prints `refused` and its number.
#![tactic(auto)]

ghost use Rattle.std.specs.Prelude.{◌≤◌, ◌<◌};
ghost use Rattle.scan.specs.Scan.{gates_of};

use record_reader::GoodRecord;
use refusal::Refusal;
use std::io;
use text::Text;

// Seven fields in order end within 163,892 bytes. Of a longer input one byte more is read: by theorem `long_refusal`
// (crates/round_trips/proofs/LongRecords.antt) the number of that part is the number of the whole input.
fn main(rt: HostRuntime) {
    let mut input = [0u8; 163893];
    let n = full_read::read_full(&mut rt.stdin(), &mut input);
    // Where nobody reads what it prints, the program ends in silence.
    let _ = print_ledger(&rt, &input[..n]);
}

fn print_ledger(to: &impl Print, bytes: &[u8]) -> io::Result<()> {
    match GoodRecord::read(bytes) {
        Ok(good) => print_lines(to, good, scan::gates_of(good.head)),
        Err(refusal) => print_refusal(to, refusal),
    }
}

fn print_refusal(to: &impl Print, refusal: Refusal) -> io::Result<()> {
    let mut line = [0u8; 256];
    let mut text = Text {
        buffer: &mut line,
        length: 0,
    };
    text.refused(refusal.number());
    let n = text.length;
    to.write_all(&line[..n])
}

fn print_heading(to: &impl Print) -> io::Result<()> {
    let mut line = [0u8; 256];
    let n = ledger_text::ledger_heading(&mut line);
    to.write_all(&line[..n])
}

fn print_lines(to: &impl Print, good: GoodRecord<'_>, gates: usize) -> io::Result<()>
    requires { gates ≤ gates_of good.head }
{
    print_heading(to)?;
    for k in 0..gates {
        print_line(to, good, k)?;
    }
    Ok(())
}

fn print_line(to: &impl Print, good: GoodRecord<'_>, k: usize) -> io::Result<()>
    requires { k < gates_of good.head }
{
    let mut line = [0u8; 256];
    let n = ledger_text::good_line(good.bytes, k, &mut line);
    to.write_all(&line[..n])
}
