// Writes fields 1 to 4 into a buffer, each with its tag and length. These functions are for our own crates: `record_writer` has checked the
// scan and the buffer's length.
#![tactic(auto)]

ghost use Rattle.std.specs.Prelude.{◌≡◌, true, ◌≤◌, ◌+◌, length};
ghost use Rattle.std.proofs.lemmas.List.Edits.{sets};
ghost use Rattle.limits.specs.Accepted.{site_accepted, grid_accepted};
ghost use Rattle.limits.specs.declared.grid.Grid.TheVariants.{Radolan, Hrap};
ghost use Rattle.big_endian.specs.BigEndian.{bytes_of};
ghost use Rattle.record_contents.specs.RecordBytes.{site_bytes, gates_bytes, grid_bytes, weighting_byte, header_bytes, field_bytes};

use big_endian::{put, put_signed};
use limits::{Grid, HrapGrid, RadolanGrid, Site, Weighting};
use scan::ScanHead;

// A one-byte tag and a two-byte length.
// Kept: a buffer and a place, here and below; the new form is no plainer: fields 1 to 3 stand at the places 0, 11 and 26, where head_in reads
// them, and all seven are put by one form.
// Kept: the tag as a number; what may not change: the record's byte holds it (document 01; definition `field_bytes`).
pub fn put_header(buffer: &mut [u8], at: usize, tag: u32, count: u32)
    requires { at + 3 ≤ length buffer.old }
    ensures { buffer.new ≡ sets buffer.old at (header_bytes tag count) }
{
    put::<1>(buffer, at, tag);
    put::<2>(buffer, at + 1, count);
}

pub fn put_site(buffer: &mut [u8], site: Site)
    requires { (site_accepted site ≡ true) × (11 ≤ length buffer.old) }
    ensures { buffer.new ≡ sets buffer.old 0 (field_bytes 1 (site_bytes site)) }
{
    put_header(buffer, 0, 1, 8);
    put_signed::<4>(buffer, 3, site.latitude);
    put_signed::<4>(buffer, 7, site.longitude);
}

pub fn put_gates(buffer: &mut [u8], head: ScanHead)
    requires { 26 ≤ length buffer.old }
    ensures { buffer.new ≡ sets buffer.old 11 (field_bytes 2 (gates_bytes head)) }
{
    put_header(buffer, 11, 2, 12);
    put::<2>(buffer, 14, head.rays);
    put::<2>(buffer, 16, head.gates);
    put::<4>(buffer, 18, head.first);
    put::<4>(buffer, 22, head.spacing);
}

pub fn put_grid(buffer: &mut [u8], grid: Grid)
    requires { (grid_accepted grid ≡ true) × (29 + length (grid_bytes grid) ≤ length buffer.old) }
    ensures { buffer.new ≡ sets buffer.old 26 (field_bytes 3 (grid_bytes grid)) }
{
    match grid {
        Grid::Radolan(g) => put_radolan(buffer, g),
        Grid::Hrap(g) => put_hrap(buffer, g),
    }
}

// Kept: kind 1 as a number; what may not change: the record's byte holds it (document 01; definition `grid_bytes`).
fn put_radolan(buffer: &mut [u8], g: RadolanGrid)
    requires { (grid_accepted (Radolan g) ≡ true) × (46 ≤ length buffer.old) }
    ensures { buffer.new ≡ sets buffer.old 26 (field_bytes 3 (grid_bytes (Radolan g))) }
{
    put_header(buffer, 26, 3, 17);
    put::<1>(buffer, 29, 1);
    put_signed::<4>(buffer, 30, g.x);
    put_signed::<4>(buffer, 34, g.y);
    put::<4>(buffer, 38, g.side);
    put::<2>(buffer, 42, g.columns);
    put::<2>(buffer, 44, g.rows);
}

// Kept: kind 2, for the same reason. Not one function with put_radolan: the fields of the two grids differ, not only their widths.
fn put_hrap(buffer: &mut [u8], g: HrapGrid)
    requires { (grid_accepted (Hrap g) ≡ true) × (38 ≤ length buffer.old) }
    ensures { buffer.new ≡ sets buffer.old 26 (field_bytes 3 (grid_bytes (Hrap g))) }
{
    put_header(buffer, 26, 3, 9);
    put::<1>(buffer, 29, 2);
    put_signed::<2>(buffer, 30, g.i);
    put_signed::<2>(buffer, 32, g.j);
    put::<2>(buffer, 34, g.columns);
    put::<2>(buffer, 36, g.rows);
}

// 0 plain, 1 by quality.
// Kept: what may not change: the clause says `weighting_byte weighting`, the number that the record's byte holds (document 01).
#[tactic(auto, unfolding(crate::specs::RecordBytes::weighting_byte))]
pub fn weighting_byte(weighting: Weighting) -> u32
    ensures { result ≡ weighting_byte weighting }
{
    match weighting {
        Weighting::Plain => 0,
        Weighting::ByQuality => 1,
    }
}

// Kept: a buffer and a place, by the one form of all seven fields (put_header).
pub fn put_weighting(buffer: &mut [u8], at: usize, weighting: Weighting)
    requires { at + 4 ≤ length buffer.old }
    ensures { buffer.new ≡ sets buffer.old at (field_bytes 4 (bytes_of 1 (weighting_byte weighting))) }
{
    put_header(buffer, at, 4, 1);
    put::<1>(buffer, at + 3, weighting_byte(weighting));
}
