mod calls;
mod fakes;
mod files;
mod streams;
