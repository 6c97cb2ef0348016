// Measuring and filling sets in each form, and filling them again from what was opened, alone and for two readers, by the compiled code.
#![tactic(auto)]

#[cfg(test)]
mod alike;
#[cfg(test)]
mod chained;
#[cfg(test)]
mod desks;
#[cfg(test)]
mod garages;
#[cfg(test)]
mod measuring;
#[cfg(test)]
mod memories;
#[cfg(test)]
mod readings;
#[cfg(test)]
mod steps;
