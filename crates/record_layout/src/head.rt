// The scan's numbers, as they stand in the record.
ghost use Rattle.std.specs.Prelude.{◌≡◌};
ghost use Rattle.record_layout.specs.RecordPlaces.{weighting_of, site_in, grid_in, head_in};

use crate::field::Field;
use crate::layout::{content_start, grid_length};
use big_endian::{Word, byte_at, i16_at, i32_at};
use limits::{Grid, HrapGrid, RadolanGrid, Site, Weighting};
use scan::ScanHead;

#[tactic(auto, unfolding(crate::specs::RecordPlaces::site_in))]
fn site_in(bytes: &[u8]) -> Site
    ensures { result ≡ site_in bytes.now }
{
    Site {
        latitude: i32_at(bytes, 3),
        longitude: i32_at(bytes, 7),
    }
}

#[tactic(auto, unfolding(crate::specs::RecordPlaces::grid_in))]
fn grid_in(bytes: &[u8]) -> Grid
    ensures { result ≡ grid_in bytes.now }
{
    if grid_length(bytes) == 17 {
        return Grid::Radolan(RadolanGrid {
            x: i32_at(bytes, 30),
            y: i32_at(bytes, 34),
            side: u32::read(bytes, 38),
            columns: u32::from(u16::read(bytes, 42)),
            rows: u32::from(u16::read(bytes, 44)),
        });
    }
    Grid::Hrap(HrapGrid {
        i: i16_at(bytes, 30),
        j: i16_at(bytes, 32),
        columns: u32::from(u16::read(bytes, 34)),
        rows: u32::from(u16::read(bytes, 36)),
    })
}

// 0 plain, 1 by quality.
// Kept: what may not change: the record's byte holds the weighting as a number (document 01; definition `weighting_of`).
#[tactic(auto, unfolding(crate::specs::RecordPlaces::weighting_of))]
fn weighting_of(byte: u8) -> Weighting
    ensures { result ≡ weighting_of byte }
{
    if byte == 0 {
        return Weighting::Plain;
    }
    Weighting::ByQuality
}

// Of any bytes; what a number past the end would be is 0, and such a record is refused.
#[tactic(auto, unfolding(crate::specs::RecordPlaces::head_in))]
pub fn head_in(bytes: &[u8]) -> ScanHead
    ensures { result ≡ head_in bytes.now }
{
    let weighting = weighting_of(byte_at(bytes, content_start(bytes, Field::Weighting)));
    ScanHead {
        site: site_in(bytes),
        rays: u32::from(u16::read(bytes, 14)),
        gates: u32::from(u16::read(bytes, 16)),
        first: u32::read(bytes, 18),
        spacing: u32::read(bytes, 22),
        grid: grid_in(bytes),
        weighting,
    }
}
