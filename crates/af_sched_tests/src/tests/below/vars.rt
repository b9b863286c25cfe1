mod limit;
mod playing;
mod rows;
mod texts;
