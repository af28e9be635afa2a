//! Checks of parameters, picks among peers, and seeded words.
mod params;
mod picks;
mod seeded_words;
