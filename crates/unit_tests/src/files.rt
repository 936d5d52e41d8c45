// Tests of the crates that read files, bind programs and format texts.

mod each_call;
mod images;
mod searches;
mod texts;
