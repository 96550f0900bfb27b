// The library that C and other languages link: the layers below, by numbers and lent bytes alone. A refusal is answered as its number.
// Its header is outside/urzalinda.h.
#![tactic(auto)]

mod apply;
mod frame;
mod numbers;
mod readers;
mod replay;
mod tables;
