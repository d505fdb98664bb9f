// The state of a sweep, from the struct of signed numbers in which it crosses from C, and back.
#![tactic(auto)]

ghost use Rattle.std.specs.Prelude.{◌≡◌};
ghost use Rattle.c_sweep.specs.SweepStruct.{sweep_of, sweep_numbers};

use c_structs::{head_numbers, head_of};
use refusal::unsigned32;
use sweep::Sweep;

// The scan's thirteen numbers, the rays taken, and 0 for a sweep that is not closed.
#[tactic(auto, using(crate::proofs::HeadInFront::head_in_front), unfolding(crate::specs::SweepStruct::sweep_of, c_structs::specs::Structs::is_number))]
pub fn sweep_of(numbers: &[i64; 15]) -> Sweep
    ensures { result ≡ sweep_of numbers.now }
{
    let mut scan = [0; 13];
    scan.copy_from_slice(&numbers[..13]);
    Sweep {
        head: head_of(&scan),
        taken: unsigned32(numbers[13]),
        closed: numbers[14] != 0,
    }
}

#[tactic(auto, unfolding(crate::specs::SweepStruct::sweep_numbers, crate::specs::SweepStruct::closed_number, c_structs::specs::Structs::head_numbers))]
pub fn sweep_numbers(sweep: Sweep) -> [i64; 15]
    ensures { result ≡ sweep_numbers sweep }
{
    let mut numbers = [0; 15];
    numbers[..13].copy_from_slice(&head_numbers(sweep.head));
    numbers[13] = i64::from(sweep.taken);
    numbers[14] = i64::from(sweep.closed);
    numbers
}
