// The calls for C: a static library over the four layers. A number is one word, a list of numbers a slice of words, and a call that can
// refuse answers with a word too; each call promises what the layer's own call promises, in words.
#![tactic(auto)]

mod bodies;
mod files;
mod lines;
mod numbers;
mod roll;
mod texts;
mod words;
