//! Tests of runs: in turn and in two threads, stopped after every number of calls and made again; of what is read of scripts: their faults, the
//! commands that lines are, and the words of the command line; and of whole scripts (`whole_scripts`).
#![tactic(auto)]

#[cfg(test)]
mod command_line;
#[cfg(test)]
mod faults;
#[cfg(test)]
mod histories;
#[cfg(test)]
mod listening;
#[cfg(test)]
mod rows;
#[cfg(test)]
mod runs;
#[cfg(test)]
mod script_faults;
#[cfg(test)]
mod script_forms;
#[cfg(test)]
mod stops;
#[cfg(test)]
mod threads;
#[cfg(test)]
mod whole_scripts;
