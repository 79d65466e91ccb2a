//! Laws of the step. Each function's contract is the law.
ghost use Rattle.rv_hart.specs.FetchLaws as fetch;
ghost use Rattle.rv_hart.specs.Locality as locality;
ghost use Rattle.rv_hart.specs.ReservationLaws as reservation;
ghost use Rattle.rv_hart.specs.StepLaws as law;

use rv_isa::laws::functions_of_the_table;
use rv_memory::laws::store_keeps_the_rest;

/// What a hart does next, in the terms of the instruction table: where the word at a permitted pc has the
/// row of an instruction, what that instruction does, with its access tested; where it has the row of none,
/// it stops with cause 2; where the four bytes are not permitted, with cause 1.
pub fn actions_by_the_table()
    ensures instruction { fetch.InstructionLaw }
    ensures illegal { fetch.IllegalLaw }
    ensures fetch_fault { fetch.FetchFaultLaw }
    ensures plain { fetch.PlainLaw }
{
    functions_of_the_table();
}

/// What a step of each class of instruction changes; all else stays. (RISC-V Unprivileged ISA, chapters
/// RV32I, M and A.)
pub fn steps_by_class()
    ensures trap { law.TrapLaw }
    ensures exit { law.ExitLaw }
    ensures set { law.SetLaw }
    ensures load { law.LoadLaw }
    ensures store { law.StoreLaw }
    ensures reserve { law.ReserveLaw }
    ensures sc_succeeds { law.ScSucceedsLaw }
    ensures sc_fails { law.ScFailsLaw }
    ensures amo { law.AmoLaw }
    ensures print { law.PrintLaw }
{}

/// What no step does: it changes no other hart's registers, pc or status, and no byte that its access does
/// not write. It takes nothing back that was printed, and prints one byte at most. A step that moves on ends no
/// hart. A number that no running hart has makes none.
pub fn what_no_step_does()
    ensures other_harts { law.OtherHartsStay }
    ensures other_bytes { law.OtherBytesStay }
    ensures output { law.OutputLaw }
    ensures moves { law.MovesRunOn }
    ensures no_hart { law.NoHartLaw }
    ensures idle { law.IdleLaw }
{
    store_keeps_the_rest();
}

/// What a step leaves of the harts' reservations, exactly, and what it accesses. A running hart makes a
/// step, and no other number does. The hart's own reservation is that of its LR, none after its SC, and
/// else what it was; a trap is neither. Each other hart's is what it was, unless the step's access writes a
/// byte of its word: then it ends. The access that a step makes is the one that was next, and has 1, 2 or
/// 4 bytes. (RISC-V Unprivileged ISA, "Load-Reserved/Store-Conditional Instructions"; which writes end a
/// reservation is this project's own choice within it.)
pub fn reservations_and_accesses()
    ensures running { reservation.StepsOfRunningHarts }
    ensures own { reservation.OwnReservation }
    ensures others { reservation.OthersReservations }
    ensures next { reservation.NextIsMade }
    ensures sizes { reservation.SizesOfAccesses }
{}

/// What a step depends on, where it is no SC: its hart's registers, pc and status, the permissions, and the bytes that it
/// reads, its instruction among them. In two states that agree on these it is the same event, leaves the hart the same but
/// for its reservation, writes the same bytes and prints the same. (An SC also reads its hart's reservation.)
pub fn steps_are_local()
    ensures { locality.LocalityLaw }
{}

/// Register x0 is read as 0; compares, shifts, products and quotients agree with the numbers that the words stand
/// for, and signed quotients are rounded towards zero.
pub fn registers_and_arithmetic()
    ensures registers { law.RegistersLaw }
    ensures arithmetic { law.ArithmeticLaw }
    ensures products { law.ProductLaw }
{}
