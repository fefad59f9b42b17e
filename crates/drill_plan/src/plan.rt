/// What a drill is made from.
#[derive(Clone, Copy, Debug, PartialEq, Eq)]
pub struct DrillPlan {
    /// What the writers draw their numbers from.
    pub seed: u64,
    /// How many writers there are, 1 to 8.
    pub writers: u32,
    /// How many consumers follow them, 1 to 8.
    pub consumers: u32,
    /// How many operations each writer does below its unit, 1 to 2,000.
    pub size: u32,
}
