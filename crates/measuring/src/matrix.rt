//! The numbers of an object of the plane that its axes depend on.
//! They are exact: where they come from stands in `entries`.
ghost use Rattle.measuring.specs.MomentsFitting.{AreSmall};

/// What the axes of an object depend on: the trace of its matrix, and the vector of twice the angle of its major axis.
#[derive(Drop)]
pub(crate) struct Matrix {
    /// How many points the object has.
    pub(crate) count: u32,
    /// The sum of the entries for x and y.
    pub(crate) trace: i128,
    /// The entry for x less that for y.
    pub(crate) double_x: i128,
    /// Twice the entry for both.
    pub(crate) double_y: i128,
    ghost small: { AreSmall count trace double_x double_y },
}
