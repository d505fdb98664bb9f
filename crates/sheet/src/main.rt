// Reads a scan record from standard input and prints its sheet.
#![tactic(auto)]

fn main(rt: HostRuntime) {
    // One byte more than is printed, so that longer input is told from input that fits.
    let mut input = [0u8; 16385];
    let mut page = [0u8; 120000];
    let n = full_read::read_full(&mut rt.stdin(), &mut input);
    let m = sheet_text::sheet(&input[..n], &mut page);
    // Where nobody reads what it prints, the program ends in silence.
    let _ = rt.write_all(&page[..m]);
}
