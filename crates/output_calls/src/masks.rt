ghost use Rattle.output_calls.specs.MaskLaws.{ConfirmedMaskByCalls, UnconfirmedMaskByCalls};
ghost use Rattle.output_calls.specs.MaskLaws.{ThroughMaskByCalls, OverridesAreOver};

/// The mask of the outputs of a panel that are confirmed by the calls is that of the rules.
pub fn confirmed_mask_by_calls()
    ensures { ConfirmedMaskByCalls }
{}

/// The mask of the outputs of a panel that are unconfirmed by the calls is that of the rules.
pub fn unconfirmed_mask_by_calls()
    ensures { UnconfirmedMaskByCalls }
{}

/// The mask of the outputs of a panel that pass the delays by the calls is that of the rules.
pub fn through_mask_by_calls()
    ensures { ThroughMaskByCalls }
{}

/// Each override that the calls tell of was done by the tick that began last, as a turn of the delays asks.
pub fn overrides_are_over()
    ensures { OverridesAreOver }
{}
