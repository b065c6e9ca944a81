mod asking;
mod conflict;
mod solving;
