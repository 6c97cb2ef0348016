// Every question of every form and layer, at each bay of many sets, by the compiled code.
#![tactic(auto)]

#[cfg(test)]
mod asked;
#[cfg(test)]
mod forms;
#[cfg(test)]
mod layered;
#[cfg(test)]
mod lent;
#[cfg(test)]
mod list_form;
#[cfg(test)]
mod pioneer_form;
#[cfg(test)]
mod plain_form;
#[cfg(test)]
mod rows;
#[cfg(test)]
mod zombit_form;
