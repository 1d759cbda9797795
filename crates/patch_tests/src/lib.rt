// Patches tried on examples: the faults, the scan order, the window, the listing.

#![tactic(auto)]

#[cfg(test)]
mod faults;
#[cfg(test)]
mod printing;
#[cfg(test)]
mod reading;
