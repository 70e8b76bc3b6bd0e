mod arguments;
mod devices;
mod folders;
mod resyncs;
mod words;
