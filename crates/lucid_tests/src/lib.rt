// Tests that no call of the built program can make. All of it is compiled and proved with the tests alone. Nothing depends on this crate.
// `examples` computes the rules and the step of a core on programs worked by hand. It is proved, and not run.
// `flights`, `layouts`, `layouts_shown` and `passes` try the pipe, first fit and the passes on code worked by hand (`codes`); `drawn` tries
// them on drawn code beside an interpreter.
// `failing`, `lists`, `networks` and `watching` call the program over files and sinks in memory, with passes and watches of the caller.
#![tactic(auto)]

#[cfg(test)]
mod boxes;
#[cfg(test)]
mod codes;
#[cfg(test)]
mod drawn;
#[cfg(test)]
mod examples;
#[cfg(test)]
mod failing;
#[cfg(test)]
mod files;
#[cfg(test)]
mod flights;
#[cfg(test)]
mod layouts;
#[cfg(test)]
mod layouts_shown;
#[cfg(test)]
mod lists;
#[cfg(test)]
mod networks;
#[cfg(test)]
mod passes;
#[cfg(test)]
mod running;
#[cfg(test)]
mod setup;
#[cfg(test)]
mod watching;
