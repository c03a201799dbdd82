//! Tests of what each word of the program does: tables of words and traces with their replies, over boards in memory on
//! which failures may be planned.
#![tactic(auto)]

#[cfg(test)]
mod boards;
#[cfg(test)]
mod filled;
#[cfg(test)]
mod format;
#[cfg(test)]
mod generated;
#[cfg(test)]
mod images;
#[cfg(test)]
mod index;
#[cfg(test)]
mod loads;
#[cfg(test)]
mod mirror;
#[cfg(test)]
mod planned;
#[cfg(test)]
mod played_run;
#[cfg(test)]
mod refused;
#[cfg(test)]
mod reserves;
#[cfg(test)]
mod rows;
#[cfg(test)]
mod streams;
#[cfg(test)]
mod texts;
#[cfg(test)]
mod told;
#[cfg(test)]
mod tpca;
#[cfg(test)]
mod transactions;
#[cfg(test)]
mod transfers;
#[cfg(test)]
mod values;
#[cfg(test)]
mod work;
