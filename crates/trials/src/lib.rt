// Tables of openings and of calls of a round at their edges.
#![tactic(auto)]

#[cfg(test)]
mod calls;
#[cfg(test)]
mod list_form;
#[cfg(test)]
mod openings;
#[cfg(test)]
mod pairs;
#[cfg(test)]
mod pioneer_form;
#[cfg(test)]
mod plain_form;
#[cfg(test)]
mod zombit_form;
