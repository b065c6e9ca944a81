mod attributes;
mod faults;
mod forms;
mod parts;
