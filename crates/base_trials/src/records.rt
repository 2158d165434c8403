ghost use Rattle.std.specs.Prelude.{◌≡◌, Err, Ok, Some, ℕ};
ghost use Rattle.record_lines.specs.Judged.{tick_as};
ghost use Rattle.record_lines.specs.declared.line.Line.TheVariants.{Tick};
ghost use Rattle.record_lines.specs.declared.why.Why.TheVariants.{TickLimit};

/// The last tick is accepted, and each number behind it is refused. No record that is tried has so many ticks, so this
/// is a law on the definition that lines are judged by.
pub fn ticks_end_at_the_last()
    ensures last { tick_as 999_999_999 (Some 1_000_000_000)
        ≡ Ok (Tick (record { 0 = 1_000_000_000 })) }
    ensures behind { (number : ℕ) → tick_as 1_000_000_000 (Some number) ≡ Err TickLimit }
{}
