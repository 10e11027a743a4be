// What programs in other languages see of a call: what it returns and what it leaves in the slices that it is lent. The definitions, calls worked by hand and
// laws stand here, and the functions in `exports`: so a wrong definition is refused without their proofs.
#![tactic(auto)]

// What a call returns where its slice is too short.
pub const SHORT: u32 = 255;
