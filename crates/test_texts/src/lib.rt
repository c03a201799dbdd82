//! Texts: the words of a command line, the lines of a trace and their replies, those that are drawn, the line of counters,
//! a trace that is served up to a byte, the lines of a source, and streams that hold bytes back. Tests alone, as tables of
//! texts and of what they say.
#![tactic(auto)]

#[cfg(test)]
mod buffers;
#[cfg(test)]
mod counters;
#[cfg(test)]
mod drawn;
#[cfg(test)]
mod keeps;
#[cfg(test)]
mod lines;
#[cfg(test)]
mod refusals;
#[cfg(test)]
mod replies;
#[cfg(test)]
mod served;
#[cfg(test)]
mod streams;
#[cfg(test)]
mod told;
#[cfg(test)]
mod words;
