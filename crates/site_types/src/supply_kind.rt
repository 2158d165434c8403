/// The four supplies that a panel watches, in the order of their bits.
#[derive(Clone, Copy, Debug, PartialEq, Eq)]
pub enum SupplyKind {
    Mains,
    Standby,
    Voltage,
    Charger,
}
